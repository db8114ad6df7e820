// A tag as a line of text.
use crate::hex::Hex;
use crate::line_error::LineError;
use bench::Bench;
use memory::Memory;
use rack::Slot;
use std::alloc::Global;
use std::fmt::Write;

// The bytes of all blocks.
fn bytes_of(heap: Global, memory: &Bench) -> Result<Vec<u8>, LineError> {
    let mut bytes = Vec::new(heap);
    let mut space = vec![in heap; 0u8; memory.block_length().bytes()]?;
    for block in 0..memory.block_count() {
        memory.read(block, space.as_mut_slice())?;
        bytes.extend_from_slice(space.as_slice())?;
    }
    Ok(bytes)
}

// A byte for each block: 01h if it is locked, 00h if not.
fn locks_of(heap: Global, memory: &Bench) -> Result<Vec<u8>, LineError> {
    let mut locks = Vec::new(heap);
    for block in 0..memory.block_count() {
        locks.push(u8::from(memory.is_locked(block)?))?;
    }
    Ok(locks)
}

// Puts the tag's line at the end of the others.
pub fn add(heap: Global, lines: &mut String, slot: &Slot<Bench>) -> Result<(), LineError> {
    let view = slot.tag.view();
    let bytes = bytes_of(heap, view.memory)?;
    let locks = locks_of(heap, view.memory)?;
    if !lines.is_empty() {
        lines.push('\n')?;
    }
    let uid = view.uid;
    let state = view.state;
    let span = slot.span;
    let bytes = Hex(bytes.as_slice());
    let locks = Hex(locks.as_slice());
    write!(
        lines,
        "dump {uid} state {state} span {span} bytes {bytes} locks {locks}"
    )?;
    Ok(())
}
