// The bench memory.
#![tactic(auto)]

mod bench;

pub use bench::Bench;
