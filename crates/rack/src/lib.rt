// A field for programs that put their tags together while they run.
#![tactic(auto)]

mod rack;

pub use rack::{Rack, Slot};
