// Bytes as they are printed: pairs of hex digits in capitals, and `-` for none.
ghost use Rattle.std.specs.Prelude.{◌≡◌, ◌<◌};
ghost use Rattle.gate.specs.Digits.{capital};

use std::fmt;

#[derive(Clone, Copy)]
pub struct Hex<'a>(pub &'a [u8]);

// Two of these a byte, and no `{byte:02X}`: that takes twice as long, and then nothing would say that they are capitals.
fn digit(value: u8) -> char
    requires { value < 16 }
    ensures { result ≡ capital value }
{
    if value < 10 {
        char::from(b'0' + value)
    } else {
        char::from(b'A' + (value - 10))
    }
}

impl fmt::Display for Hex<'_> {
    fn fmt<W: fmt::Write>(&self, f: &mut fmt::Formatter<W>) -> fmt::Result {
        if self.0.is_empty() {
            return f.write_char('-');
        }
        for byte in self.0 {
            f.write_char(digit(*byte / 16))?;
            f.write_char(digit(*byte % 16))?;
        }
        Ok(())
    }
}
