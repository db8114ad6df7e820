// Why a tag shows nothing.
ghost use Rattle.std.specs.Prelude.{◌≡◌};
ghost use Rattle.shown.specs.Flaw.{number_of};

// Each has the number under which it is listed.
#[derive(Clone, Copy, PartialEq, Eq, Debug)]
pub enum Flaw {
    // another magic number, or another version
    NotNdef = 10,
    // its bytes may not be read
    NotReadable = 11,
    // its end is past what block numbers reach
    TooLong = 12,
    // a TLV is malformed
    Malformed = 13,
    // there is no message TLV
    NoMessage = 14,
}

impl Flaw {
    // The number under which it is listed. A method and no `From`, which would not say which number it is.
    pub fn number(self) -> u8
        ensures { result ≡ number_of self }
    {
        self as u8
    }
}
