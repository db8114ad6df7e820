// What a record's header says, and why a record is refused.
#![tactic(auto)]

mod format;
mod header;
mod refusal;

pub use format::Format;
pub use header::{CHUNK, FIRST, LAST, NAMED, SHORT, fixed_length, is_set};
pub use refusal::RecordRefusal;
