// A walk number: where a house comes on the round.
ghost use Rattle.std.specs.Prelude.{◌≡◌, ◌+◌, ◌%◌, ◌≤◌, length, IfOk};
ghost use Rattle.gate.specs.Digits.{padded, spelled};

use crate::line_error::LineError;
use crate::words;
use std::fmt;

#[derive(Clone, Copy)]
pub struct Walk {
    number: usize,
    // how many digits it was typed with
    width: usize,
}

// The last decimal digit, in ASCII.
fn last_digit(number: usize) -> u8
    ensures { result ≡ 48 + number % 10 }
{
    b'0' + (number % 10) as u8
}

impl Walk {
    // The most digits that a walk number has.
    const DIGITS: usize = 4;

    // Its four digits, with zeros on the left.
    pub fn digits(self) -> [u8; 4]
        ensures { result ≡ padded self.number }
    {
        let number = self.number;
        [number / 1000, number / 100, number / 10, number].map(last_digit)
    }
}

impl TryFrom<&[u8]> for Walk {
    type Error = LineError;

    ghost try_from_gives = { λ word result. IfOk result (λ w. (w.number ≡ spelled word.now) × (w.width ≡ length word.now) × (w.width ≤ 4)) };

    fn try_from(word: &[u8]) -> Result<Walk, LineError> {
        let width = word.len();
        if width > Walk::DIGITS {
            return Err(LineError::BadWalk);
        }
        let number = words::number(word).map_err(|_| LineError::BadWalk)?;
        Ok(Walk { number, width })
    }
}

// As it was typed.
impl fmt::Display for Walk {
    fn fmt<W: fmt::Write>(&self, f: &mut fmt::Formatter<W>) -> fmt::Result {
        let number = self.number;
        let width = self.width;
        write!(f, "{number:0width$}")
    }
}
