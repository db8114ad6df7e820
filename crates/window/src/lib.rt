// The window over any memory.
#![tactic(auto)]

mod window;

pub use window::Window;
