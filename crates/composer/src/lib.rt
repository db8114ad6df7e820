// Messages made: the composer, and recomposing.
#![tactic(auto)]

mod composer;
mod description;
mod fields;
mod recomposer;
mod records;
mod writer;

pub use composer::compose;
pub use description::{Description, Extent};
pub use recomposer::recompose;
pub use records::LONGEST;
