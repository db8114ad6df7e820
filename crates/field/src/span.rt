// How long a tag stays in reach.
ghost use Rattle.std.specs.Prelude.{◌≡◌};
ghost use Rattle.field.specs.Span.{fallen, reaches, answers};

use std::fmt;

// A span is counted in half exchanges: an exchange that is answered takes two. At 1 the tag still carries a frame out, but
// its answer is lost; at 0 it gets no frame. An Option<u64> could have no such methods, and its None would have to mean
// for good.
#[derive(Clone, Copy, PartialEq, Eq, Debug)]
pub enum Span {
    Endless,
    Left(u64),
}

impl Span {
    // The span after an exchange.
    pub fn fallen(self) -> Span
        ensures { result ≡ fallen self }
    {
        match self {
            Span::Endless => Span::Endless,
            Span::Left(n) => Span::Left(n.saturating_sub(2)),
        }
    }

    // Whether a tag with this span gets a frame.
    pub fn reaches(self) -> bool
        ensures { result ≡ reaches self }
    {
        match self {
            Span::Endless => true,
            Span::Left(n) => n > 0,
        }
    }

    // Whether its answer comes back.
    pub fn answers(self) -> bool
        ensures { result ≡ answers self }
    {
        match self {
            Span::Endless => true,
            Span::Left(n) => n > 1,
        }
    }
}

impl fmt::Display for Span {
    ghost use Rattle.std.specs.Prelude.{Some};
    ghost use Rattle.field.specs.Span.{span_text};

    ghost output = { λ span. Some (span_text span) };

    fn fmt<W: fmt::Write>(&self, f: &mut fmt::Formatter<W>) -> fmt::Result {
        match self {
            Span::Endless => f.write_str("endless"),
            Span::Left(n) => write!(f, "{n}"),
        }
    }
}
