// A Type 5 tag: what it answers to each frame, in each state, over any memory.
#![tactic(auto)]

mod access;
mod body;
mod order;
mod reading;
mod refusal;
mod step;
mod tag;

pub use access::View;
pub use refusal::TagRefusal;
pub use request::{ErrorCode, Marks, State, Uid};
pub use step::{LONGEST_ANSWER, check_space};
pub use tag::Tag;
