// Fields piled up: two in one gate, and one that goes out of reach.
#![tactic(auto)]

mod fading;
mod pair;

pub use fading::Fading;
pub use pair::Pair;
