// Why a message is not read or not composed.
ghost use Rattle.std.specs.Prelude.{◌≡◌};
ghost use Rattle.header.specs.Refusal.{number_of, place_of};

#[derive(Clone, Copy, PartialEq, Eq, Debug)]
pub enum RecordRefusal {
    // 4: the composing space is shorter than the message.
    SpaceShort,
    // 30: the record whose header is at this place of the message is bad.
    BadHeader { place: usize },
    // 31: the description of this index is bad; 0 where there is none, or where the whole is too long.
    BadDescription { index: usize },
}

impl RecordRefusal {
    // The number under which a refusal is listed. A method and no `From`, which would not say which number it is.
    pub fn number(self) -> u8
        ensures { result ≡ number_of self }
    {
        match self {
            RecordRefusal::SpaceShort => 4,
            RecordRefusal::BadHeader { .. } => 30,
            RecordRefusal::BadDescription { .. } => 31,
        }
    }

    // The place of the bad header, or the index of the bad description; else 0 and no `None`: each refusal is told with a
    // number there, which is a rule of the project.
    pub fn place(self) -> usize
        ensures { result ≡ place_of self }
    {
        match self {
            RecordRefusal::SpaceShort => 0,
            RecordRefusal::BadHeader { place } => place,
            RecordRefusal::BadDescription { index } => index,
        }
    }
}
