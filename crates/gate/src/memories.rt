// Makes memories for tags: without a block, or blank.
ghost use Rattle.std.specs.Prelude.{◌≡◌, ◌*◌, replicate, IfOk};
ghost use Rattle.memory.specs.BlockLength.{bytes_of};

use crate::line_error::LineError;
use bench::Bench;
use memory::BlockLength;
use std::alloc::Global;

// A memory without a block.
pub fn empty(heap: Global, unit: BlockLength) -> Bench {
    Bench::new(unit, Vec::new(heap), Vec::new(heap))
}

// So many blocks of 00h, all open.
pub fn blank(heap: Global, unit: BlockLength, count: u32) -> Result<Bench, LineError>
    ensures { IfOk result (λ m. (m.unit ≡ unit) × (m.bytes.items ≡ replicate (bytes_of unit * count) 0) × (m.locks.items ≡ replicate count 0)) }
{
    let count = count as usize;
    let bytes = vec![in heap; 0u8; unit.bytes() * count]?;
    let locks = vec![in heap; 0u8; count]?;
    Ok(Bench::new(unit, bytes, locks))
}
