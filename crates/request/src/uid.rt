use std::fmt;

// The number that tells one tag from every other.
#[derive(Clone, Copy, PartialEq, Eq, Debug)]
pub struct Uid(pub u64);

// 16 hex digits.
impl fmt::Display for Uid {
    ghost use Rattle.std.specs.Prelude.{Some};
    ghost use Rattle.request.specs.Texts.{uid_text};

    ghost output = { λ uid. Some (uid_text uid.0) };

    fn fmt<W: fmt::Write>(&self, f: &mut fmt::Formatter<W>) -> fmt::Result {
        write!(f, "{:016X}", self.0)
    }
}
