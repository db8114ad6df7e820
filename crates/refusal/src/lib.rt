// Why a call of the gate is refused, and how far it had come.
#![tactic(auto)]

mod cause;
mod refusal;
mod step;

pub use cause::Cause;
pub use refusal::Refusal;
pub use step::Step;
