// Making a tag, and looking at it.
ghost use Rattle.std.specs.Prelude.{◌≡◌};
ghost use Rattle.tag.specs.Means.{tag_of};
ghost use Rattle.tag.specs.Tag.{with_memory};
ghost use Rattle.request.specs.declared.state.State.TheVariants.{Ready};

use crate::tag::Tag;
use memory::Memory;
use request::{Marks, State, Uid};
use std::mem;

// What a tag is at a moment.
#[derive(Drop)]
pub struct View<'a, M: Memory> {
    pub memory: &'a M,
    pub uid: Uid,
    pub state: State,
    pub marks: Marks,
}

impl<M: Memory> Tag<M> {
    // A tag that is READY.
    pub fn new(memory: M, uid: Uid, marks: Marks) -> Tag<M>
        ensures { tag_of M.model result ≡ record { memory = M.model memory; uid = uid.0; state = Ready; marks = marks } }
    {
        Tag {
            memory,
            uid,
            state: State::Ready,
            marks,
        }
    }

    // The tag as it stands.
    pub fn view(&self) -> View<'_, M>
        ensures memory { M.model result.memory.now ≡ (tag_of M.model self.now).memory }
        ensures uid { result.uid.0 ≡ (tag_of M.model self.now).uid }
        ensures state { result.state ≡ (tag_of M.model self.now).state }
        ensures marks { result.marks ≡ (tag_of M.model self.now).marks }
    {
        View {
            memory: &self.memory,
            uid: self.uid,
            state: self.state,
            marks: self.marks,
        }
    }

    // Puts another memory into the tag, and gives the one back that it had. Its state stays.
    pub fn replace_memory(&mut self, memory: M) -> M
        ensures given { result ≡ self.old.memory }
        ensures after { tag_of M.model self.new ≡ with_memory (tag_of M.model self.old) (M.model memory) }
    {
        mem::replace(&mut self.memory, memory)
    }
}
