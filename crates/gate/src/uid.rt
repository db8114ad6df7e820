// A UID as it is typed: 16 hex digits, most significant first.
use crate::line_error::LineError;
use crate::words;
use tag::Uid;

// How many digits a UID has.
const DIGITS: usize = 16;

// How a line spells a UID is this program's, and a `TryFrom<&[u8]>` would have to stand beside the library's type.
pub fn read(word: &[u8]) -> Result<Uid, LineError> {
    if word.len() != DIGITS {
        return Err(LineError::BadUid);
    }
    // A fold beside that of `words::number`: 16 hex digits fit a UID, so none of its steps can be too large.
    let mut number: u64 = 0;
    for byte in word {
        let digit = words::hex_digit(*byte).map_err(|_| LineError::BadUid)?;
        number = number << 4 | u64::from(digit);
    }
    Ok(Uid(number))
}
