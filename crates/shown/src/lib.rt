// What a tag shows: the container and the TLVs in its memory, and the message that they lead to.
#![tactic(auto)]

mod checks;
mod container;
mod flaw;
mod header;
mod value;

pub use container::{Container, Place};
pub use flaw::Flaw;
pub use header::Header;
pub use value::Value;
