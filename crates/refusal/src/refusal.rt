// A call that is refused.
use crate::cause::Cause;
use crate::step::Step;

#[derive(Clone, Copy, PartialEq, Eq, Debug)]
pub struct Refusal {
    pub cause: Cause,
    pub step: Step,
    // the last block that was sent; 0 and no `None` before any: each refusal is told with a block, a rule of the project
    pub block: u32,
    // how many frames were sent
    pub exchanges: u64,
}
