// The type name format of a record: what its type field means.
ghost use Rattle.std.specs.Prelude.{◌≡◌, ℕ};
ghost use Rattle.header.specs.Format.{number, format_of, allows};

// The low three bits of a header's first byte, all eight values.
#[derive(Clone, Copy, PartialEq, Eq, Debug)]
pub enum Format {
    Empty,
    WellKnown,
    Media,
    Uri,
    External,
    Unknown,
    Unchanged,
    Reserved,
}

impl Format {
    // The format that the low three bits of `flags` name. No `From<u8>`: that would hide that the upper five count for nothing.
    pub fn from_flags(flags: u8) -> Format
        ensures { result ≡ format_of flags }
    {
        match flags & Self::MASK {
            0 => Format::Empty,
            1 => Format::WellKnown,
            2 => Format::Media,
            3 => Format::Uri,
            4 => Format::External,
            5 => Format::Unknown,
            6 => Format::Unchanged,
            _ => Format::Reserved,
        }
    }

    // The bits of a header that name this format.
    pub const MASK: u8 = 0x07;

    // The value of the three bits. A method and no `From`, since `u8::from(format)` would not say which number it is.
    pub fn number(self) -> u8
        ensures { result ≡ number self }
    {
        self as u8
    }

    // Whether a record of this format may have a type, an ID and a payload of these lengths.
    pub fn allows(self, kind: usize, id: usize, payload: usize) -> bool
        ensures { result ≡ allows self kind id payload }
    {
        match self {
            Format::Empty => kind == 0 && id == 0 && payload == 0,
            Format::Unknown => kind == 0,
            Format::Unchanged | Format::Reserved => false,
            Format::WellKnown | Format::Media | Format::Uri | Format::External => true,
        }
    }
}
