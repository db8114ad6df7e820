// A line's words, and what they stand for.
ghost use Rattle.std.specs.Prelude.{◌≡◌, ℕ, ◌+◌, ◌*◌, ◌<◌, ◌≤◌, ◌⊎◌, length, IfOk, ◌≢◌, slice_index};
ghost use Rattle.gate.specs.Digits.{capital, small, spelled};

use crate::line_error::LineError;
use std::alloc::Global;
use std::str::from_utf8;

// The words of a line that are not yet taken; a single space parts two words.
#[derive(Drop)]
pub struct Words<'a> {
    // what is left of the line, or none once its last word is taken
    rest: Option<&'a [u8]>,
}

impl<'a> Words<'a> {
    pub fn new(line: &'a [u8]) -> Words<'a> {
        Words { rest: Some(line) }
    }

    // All that is left of the line, spaces and all.
    pub fn take_rest(&mut self) -> Option<&'a [u8]> {
        self.rest.take()
    }

    // The next word, if there is one.
    pub fn next_word(&mut self) -> Option<&'a [u8]> {
        let rest = self.rest.take()?;
        let end = word_end(rest);
        if end < rest.len() {
            self.rest = Some(&rest[end + 1..]);
        }
        Some(&rest[0..end])
    }

    // The next word, which stays.
    pub fn peek(&self) -> Option<&'a [u8]> {
        let rest = self.rest?;
        Some(&rest[0..word_end(rest)])
    }

    // The next word, which the command cannot do without.
    pub fn needed(&mut self) -> Result<&'a [u8], LineError> {
        self.next_word().ok_or(LineError::MissingWord)
    }

    // The word that names a command, which is text.
    pub fn name(&mut self) -> Result<&'a str, LineError> {
        from_utf8(self.needed()?).map_err(|_| LineError::UnknownCommand)
    }

    // That the line has no word left.
    pub fn finish(&self) -> Result<(), LineError> {
        if self.rest.is_some() {
            return Err(LineError::ExtraWord);
        }
        Ok(())
    }
}

// Where the first word ends: at a space, or with the bytes.
fn word_end(bytes: &[u8]) -> usize
    ensures within { result ≤ length bytes.now }
    ensures before { (k : ℕ) → k < result → slice_index bytes.now k ≢ 32 }
    ensures found { result < length bytes.now → slice_index bytes.now result ≡ 32 }
{
    bytes
        .iter()
        .position(|byte| *byte == b' ')
        .unwrap_or(bytes.len())
}

fn decimal_digit(byte: u8) -> Result<usize, LineError>
    ensures { IfOk result (λ d. (d < 10) × (byte ≡ 48 + d)) }
{
    let digit = char::from(byte).to_digit(10).ok_or(LineError::BadNumber)?;
    Ok(digit as usize)
}

// The number with one more digit at its end.
fn with_digit(number: usize, digit: usize) -> Result<usize, LineError>
    ensures { IfOk result (λ n. n ≡ 10 * number + digit) }
{
    number
        .checked_mul(10)
        .and_then(|tens| tens.checked_add(digit))
        .ok_or(LineError::NumberTooLarge)
}

// The number that the decimal digits of a word spell.
pub fn number(word: &[u8]) -> Result<usize, LineError>
    ensures { IfOk result (λ n. n ≡ spelled word.now) }
{
    if word.is_empty() {
        return Err(LineError::BadNumber);
    }
    let mut total = 0;
    for byte in word {
        total = with_digit(total, decimal_digit(*byte)?)?;
    }
    Ok(total)
}

pub fn hex_digit(byte: u8) -> Result<u8, LineError>
    ensures { IfOk result (λ d. (d < 16) × ((byte ≡ capital d) ⊎ (byte ≡ small d))) }
{
    let digit = char::from(byte).to_digit(16).ok_or(LineError::BadHex)?;
    Ok(digit as u8)
}

// The bytes that a word gives in HEX.
pub fn hex(heap: Global, word: &[u8]) -> Result<Vec<u8>, LineError> {
    let mut bytes = Vec::new(heap);
    if word == b"-".as_slice() {
        return Ok(bytes);
    }
    if word.is_empty() {
        return Err(LineError::BadHex);
    }
    for pair in word.chunks(2) {
        let [high, low] = pair else {
            return Err(LineError::BadHex);
        };
        bytes.push(hex_digit(*high)? * 16 + hex_digit(*low)?)?;
    }
    Ok(bytes)
}
