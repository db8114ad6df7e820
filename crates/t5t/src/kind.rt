// What the T of a TLV says.
ghost use Rattle.std.specs.Prelude.{◌≡◌};

#[derive(Clone, Copy, PartialEq, Eq, Debug)]
pub(crate) enum Kind {
    // FEh: there is no TLV behind it
    Terminator,
    // 03h
    Message,
    // any other is skipped with its value
    Other,
}

impl From<u8> for Kind {
    ghost use Rattle.t5t.specs.Kind.{kind_of};

    ghost from_gives = { λ t kind. kind ≡ kind_of t };

    fn from(t: u8) -> Kind {
        match t {
            0xFE => Kind::Terminator,
            0x03 => Kind::Message,
            _ => Kind::Other,
        }
    }
}
