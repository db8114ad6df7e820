// The air between a gate and the tags in its reach: who hears a frame, and whose answer comes back.
#![tactic(auto)]

mod answer;
mod field;
mod heard;
mod single;
mod span;

pub use answer::{AnswerRefusal, decode};
pub use field::Field;
pub use heard::Heard;
pub use span::Span;
