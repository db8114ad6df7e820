// The printed image.
#![tactic(auto)]

mod printed;

pub use printed::{Image, Lent, Printed};
