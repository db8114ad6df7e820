// What a tag's memory is.
#![tactic(auto)]

mod block_length;
mod memory;
mod refusal;

pub use block_length::BlockLength;
pub use memory::Memory;
pub use refusal::MemoryRefusal;
