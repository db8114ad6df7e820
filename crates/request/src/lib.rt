// What a reader asks of a tag, frame and command, and what is told of a tag: its UID, state, marks and errors.
#![tactic(auto)]

mod command;
mod error_code;
mod frame;
mod marks;
mod state;
mod uid;

pub use command::{Command, UnknownCode, Work};
pub use error_code::ErrorCode;
pub use frame::{Frame, Reach};
pub use marks::Marks;
pub use state::State;
pub use uid::Uid;
