// The frames that a gate sends, and numbers of two bytes.
#![tactic(auto)]

mod frame;
mod numbers;

pub use frame::Frame;
pub use numbers::word;
