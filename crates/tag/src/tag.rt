// A tag over any memory, and what it does with each frame.
use memory::Memory;
use request::{Marks, State, Uid};

#[derive(Drop)]
pub struct Tag<M: Memory> {
    pub(crate) memory: M,
    pub(crate) uid: Uid,
    pub(crate) state: State,
    pub(crate) marks: Marks,
}
