// The tags of a rehearsal, in the order in which they were put there.
ghost use Rattle.std.specs.Prelude.{◌≡◌, ◌+◌, ◌<◌, ◌≤◌, length, vec_len, IfOk, MatchResult, OnErr, slice_index_or};
ghost use Rattle.bench.specs.Bench.{bench_model};
ghost use Rattle.field.specs.Exchange.{Exchanged};
ghost use Rattle.bench.specs.declared.bench.Bench.{Bench};
ghost use Rattle.gate.specs.Adding.{Adding};
ghost use Rattle.gate.specs.Hearings.{Hearing};
ghost use Rattle.gate.specs.Preparing.{Prepared, bytes_put, remade};
ghost use Rattle.memory.specs.BlockLength.{listed};
ghost use Rattle.memory.specs.Model.{count_of, put_at, with_lock};
ghost use Rattle.rack.specs.declared.rack.Slot.{Slot};
ghost use Rattle.gate.specs.Sessions.{ReadsWith, air_over};
ghost use Rattle.t5t.specs.Detects.{Detects};
ghost use Rattle.gate.specs.Tagged.{SameTags, WithNew, placed, blank_placed, first_with, spanned};

use crate::answer::Answer;
use crate::line_error::LineError;
use crate::new_tag::NewTag;
use crate::refused::Refusal;
use crate::session::Session;
use crate::{dump, memories};
use bench::Bench;
use field::{Field, Heard, Span};
use memory::{BlockLength, Memory};
use rack::{Rack, Slot};
use std::alloc::Global;
use t5t::{Found, NotFound, NotRead, Received, Sighted};
use tag::{LONGEST_ANSWER, Tag, TagRefusal, Uid};

#[derive(Drop)]
pub struct Tags {
    heap: Global,
    rack: Rack<Bench>,
}

// The next three ask that a place is there, which the tags have looked for, so they are the tags' own.

// Puts the new bytes over those at an address.
fn put(bytes: &mut Vec<u8>, address: usize, new: &[u8])
    requires { address + length new.now ≤ vec_len bytes.old }
    ensures { bytes.new.items ≡ put_at address new.now bytes.old.items }
{
    bytes[address..address + new.len()].copy_from_slice(new);
}

// The memory with new bytes from an address on, whether their blocks are locked or not.
#[tactic(auto, using(crate::proofs::Preparing::bench_bytes, std::proofs::lemmas::Grind::common_steps))]
fn bytes_laid(memory: Bench, address: usize, new: &[u8]) -> Bench
    requires { address + length new.now ≤ length (bench_model memory).bytes }
    ensures locks { result.locks ≡ memory.locks }
    ensures bytes { bench_model result ≡ bytes_put address new.now (bench_model memory) }
{
    let unit = memory.block_length();
    let (mut bytes, locks) = memory.into_parts();
    put(&mut bytes, address, new);
    Bench::new(unit, bytes, locks)
}

// The memory with that block locked, which it may have been before.
fn block_locked(mut memory: Bench, block: u32) -> Bench
    requires { block < count_of (bench_model memory) }
    ensures bytes { result.bytes.items ≡ memory.bytes.items }
    ensures lock { bench_model result ≡ with_lock (bench_model memory) block }
{
    let _ = memory.lock(block);
    memory
}

// Each contract says what an error leaves, and that is one named fact, `SameTags`.
impl Tags {
    pub fn new(heap: Global) -> Tags
        ensures { vec_len result.rack.slots ≡ 0 }
    {
        Tags {
            heap,
            rack: Rack {
                slots: Vec::new(heap),
            },
        }
    }

    // Adds a blank tag behind the others, unless its block length is refused.
    pub fn add_tag(&mut self, unit: usize, tag: NewTag) -> Result<Answer, LineError>
        ensures unchanged { OnErr result (SameTags self.old self.new) }
        ensures kept { IfOk result (λ a. (x : Refusal) → a ≡ Answer.Refused x → SameTags self.old self.new) }
        ensures added { IfOk result (λ a. Adding tag (listed unit) self.old self.new a) }
    {
        match BlockLength::try_from(unit) {
            Ok(unit) => {
                self.add(tag, unit)?;
                Ok(Answer::TagAdded { uid: tag.uid })
            }
            Err(refusal) => Ok(Answer::Refused {
                refusal: refusal.into(),
            }),
        }
    }

    // Adds a blank tag behind the others.
    pub fn add(&mut self, new: NewTag, unit: BlockLength) -> Result<(), LineError>
        ensures count { MatchResult result (λ _. vec_len self.new.rack.slots ≡ vec_len self.old.rack.slots + 1) (λ _. SameTags self.old self.new) }
        ensures added { MatchResult result (λ _. WithNew (blank_placed new unit) self.old self.new) (λ _. SameTags self.old self.new) }
    {
        let memory = memories::blank(self.heap, unit, new.count)?;
        let tag = Tag::new(memory, new.uid, new.marks);
        let span = new.span;
        self.rack.slots.push(Slot { tag, span })?;
        Ok(())
    }

    // Where the first tag with that UID stands.
    fn first(&self, uid: Uid) -> Result<usize, LineError>
        ensures { MatchResult result (λ i. (i ≡ first_with uid.0 self.now) × (i < vec_len self.now.rack.slots)) (λ _. first_with uid.0 self.now ≡ vec_len self.now.rack.slots) }
    {
        self.rack
            .slots
            .iter()
            .position(|slot| slot.tag.view().uid == uid)
            .ok_or(LineError::NoTag)
    }

    // Gives the tag at a place what is made of its memory.
    fn prepare<F: FnOnce(Bench) -> Bench>(&mut self, index: usize, make: F)
        requires place { index < vec_len self.old.rack.slots }
        requires callable { (slot : Slot Bench) → slot ≡ slice_index_or self.old.rack.slots.items index slot → F.pre make slot.tag.memory }
        ensures { Prepared index self.old.rack.slots.items self.new.rack.slots.items (F.post make) }
    {
        let tag = &mut self.rack.slots[index].tag;
        let unit = tag.view().memory.block_length();
        let memory = tag.replace_memory(memories::empty(self.heap, unit));
        let _ = tag.replace_memory(make(memory));
    }

    // Puts bytes into the memory of the first tag with that UID, locked or not.
    pub fn put_bytes(&mut self, uid: Uid, address: usize, bytes: &[u8]) -> Result<(), LineError>
        ensures { MatchResult result (λ _. placed self.new ≡ remade uid.0 (bytes_put address bytes.now) (placed self.old)) (λ _. SameTags self.old self.new) }
    {
        let index = self.first(uid)?;
        let memory = self.rack.slots[index].tag.view().memory;
        let length = memory.block_length().bytes() * memory.block_count() as usize;
        if address > length || bytes.len() > length - address {
            return Err(LineError::OutsideMemory);
        }
        self.prepare(index, |memory| bytes_laid(memory, address, bytes));
        Ok(())
    }

    // Locks a block of the first tag with that UID.
    pub fn lock(&mut self, uid: Uid, block: usize) -> Result<(), LineError>
        ensures { MatchResult result (λ _. placed self.new ≡ remade uid.0 (λ m. with_lock m block) (placed self.old)) (λ _. SameTags self.old self.new) }
    {
        let index = self.first(uid)?;
        let memory = self.rack.slots[index].tag.view().memory;
        if block >= memory.block_count() as usize {
            return Err(LineError::NoBlock);
        }
        self.prepare(index, |memory| block_locked(memory, block as u32));
        Ok(())
    }

    // Says how long the first tag with that UID stays in reach.
    pub fn set_span(&mut self, uid: Uid, span: Span) -> Result<(), LineError>
        ensures after { MatchResult result (λ _. self.new.rack.slots.items ≡ spanned uid.0 span self.old.rack.slots.items) (λ _. SameTags self.old self.new) }
        ensures absent { OnErr result (first_with uid.0 self.old ≡ vec_len self.old.rack.slots) }
    {
        let index = self.first(uid)?;
        self.rack.slots[index].span = span;
        Ok(())
    }

    // Lets every tag in reach hear a frame, and tells what came of it.
    pub fn answer_to(&mut self, frame: &[u8]) -> Result<Answer, LineError>
        ensures unchanged { OnErr result (SameTags self.old self.new) }
        ensures heard { IfOk result (λ a. Hearing self.old self.new frame.now a) }
    {
        // Made before the frame is sent; where one tag answers, the space becomes the answer.
        let mut space = vec![in self.heap; 0u8; LONGEST_ANSWER]?;
        match self.hear(frame, space.as_mut_slice()) {
            Ok(heard) => Ok(Answer::of_heard(heard, space)),
            Err(refusal) => Ok(Answer::Refused {
                refusal: refusal.into(),
            }),
        }
    }

    // Lets each tag in reach hear the frame; a single answer lies in the front of the space.
    pub fn hear(&mut self, frame: &[u8], space: &mut [u8]) -> Result<Heard, TagRefusal>
        ensures count { vec_len self.new.rack.slots ≡ vec_len self.old.rack.slots }
        ensures exchanged { Exchanged (placed self.old) (placed self.new) frame.now space.old space.new result }
    {
        self.rack.exchange(frame, space)
    }

    // Detects the tag with that UID.
    pub fn detect(&mut self, uid: Uid, space: &mut [u8]) -> Result<Found, NotFound>
        ensures { Detects uid.0 (air_over self.old space.old) (air_over self.new space.new) result }
    {
        Sighted::new(uid).detect(&mut self.rack, space)
    }

    // Reads with a session into the front of the message space.
    pub fn read(
        &mut self,
        session: &Session,
        space: &mut [u8],
        message: &mut [u8],
    ) -> Result<Received, NotRead>
        ensures { ReadsWith session.now (air_over self.old space.old) (air_over self.new space.new) message.old message.new result }
    {
        session.read(&mut self.rack, space, message)
    }

    // A line for each tag with that UID.
    pub fn dump(&self, uid: Uid) -> Result<String, LineError> {
        let mut lines = String::new(self.heap);
        for slot in self.rack.slots.iter() {
            if slot.tag.view().uid == uid {
                dump::add(self.heap, &mut lines, slot)?;
            }
        }
        if lines.is_empty() {
            return Err(LineError::NoTag);
        }
        Ok(lines)
    }
}
