// How far a call has come.
ghost use Rattle.std.specs.Prelude.{◌≡◌};
ghost use Rattle.refusal.specs.Step.{step_number};

#[derive(Clone, Copy, PartialEq, Eq, Debug)]
pub enum Step {
    // no frame was sent
    Before = 0,
    // the container
    Container = 1,
    // the walk to the message, and its L-field
    Walk = 2,
    // other reads
    Read = 3,
}

impl Step {
    // A method and no `From`, which would not say which number it is.
    pub fn number(self) -> u8
        ensures { result ≡ step_number self }
    {
        self as u8
    }
}
