// What a gate hears of one exchange.
ghost use Rattle.std.specs.Prelude.{◌≡◌};
ghost use Rattle.field.specs.Exchange.{heard_by, together};

#[derive(Clone, Copy, PartialEq, Eq, Debug)]
pub enum Heard {
    Nothing,
    // one answer, of so many bytes
    One(usize),
    Several,
}

impl Heard {
    // What is heard of two fields together.
    pub fn and(self, other: Heard) -> Heard
        ensures { result ≡ together self other }
    {
        match (self, other) {
            (Heard::Nothing, heard) | (heard, Heard::Nothing) => heard,
            (Heard::One(_) | Heard::Several, Heard::One(_) | Heard::Several) => Heard::Several,
        }
    }
}

// What is heard of one tag: the length of its answer, or nothing.
impl From<Option<usize>> for Heard {
    ghost from_gives = { λ said heard. heard ≡ heard_by said };

    fn from(said: Option<usize>) -> Heard {
        match said {
            Some(length) => Heard::One(length),
            None => Heard::Nothing,
        }
    }
}
