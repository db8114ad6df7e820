use std::fmt;

// The state of a tag: who may speak to it without its UID.
#[derive(Clone, Copy, PartialEq, Eq, Debug)]
pub enum State {
    Ready,
    Selected,
    Quiet,
}

impl fmt::Display for State {
    ghost use Rattle.std.specs.Prelude.{Some};
    ghost use Rattle.request.specs.Texts.{state_text};

    ghost output = { λ state. Some (state_text state) };

    fn fmt<W: fmt::Write>(&self, f: &mut fmt::Formatter<W>) -> fmt::Result {
        f.write_str(match self {
            State::Ready => "READY",
            State::Selected => "SELECTED",
            State::Quiet => "QUIET",
        })
    }
}
