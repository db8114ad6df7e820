// Where and why a call stops.
ghost use Rattle.std.specs.Prelude.{◌≡◌};
ghost use Rattle.t5t.specs.Asking.{last_of};
ghost use Rattle.t5t.specs.Stopped.{refusal_of};

use crate::link::Link;
use refusal::{Cause, Refusal, Step};

// A refusal but for the number of frames, which the call has.
#[derive(Clone, Copy)]
pub(crate) struct Stop {
    pub(crate) cause: Cause,
    pub(crate) step: Step,
    // the last block that was sent; 0 and no `None` before any: each refusal is told with a block, a rule of the project
    pub(crate) block: u32,
}

impl Stop {
    // A short answer space is refused before all else.
    pub(crate) const ANSWER_SPACE_SHORT: Stop = Stop {
        cause: Cause::AnswerSpaceShort,
        step: Step::Before,
        block: 0,
    };

    // The refusal of a call that has sent so many frames.
    pub(crate) fn refusal(self, exchanges: u64) -> Refusal
        ensures { result ≡ refusal_of self exchanges }
    {
        Refusal {
            cause: self.cause,
            step: self.step,
            block: self.block,
            exchanges,
        }
    }
}

impl Link {
    // Where the call stops for what it has read.
    pub(crate) fn stop(self, step: Step, cause: Cause) -> Stop
        ensures { result ≡ record { cause = cause; step = step; block = last_of self.kept } }
    {
        Stop {
            cause,
            step,
            block: self.kept.map_or(0, |kept| u32::from(kept.number)),
        }
    }
}
