// NDEF messages, read: the record reader. It knows nothing of tags.
#![tactic(auto)]

mod layout;
mod reader;
mod record;

pub use header::{Format, RecordRefusal, fixed_length};
pub use reader::Reader;
pub use record::{Part, Record};
