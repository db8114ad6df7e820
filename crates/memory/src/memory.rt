// What every memory does.
ghost use Rattle.std.specs.Prelude.{◌≡◌, ℕ};
ghost use Rattle.memory.specs.BlockLength.{bytes_of};
ghost use Rattle.memory.specs.Model.{Model, Sound, count_of};
ghost use Rattle.memory.specs.Calls.{spaced, present, unlocked, TellsLock, Reads, Writes, Locks};

use crate::block_length::BlockLength;
use crate::refusal::MemoryRefusal;

pub trait Memory {
    // what the memory means
    ghost model: { Self → Model };

    fn block_length(&self) -> BlockLength
        ensures { bytes_of result ≡ (model self.now).unit };

    fn block_count(&self) -> u32
        ensures { result ≡ count_of (model self.now) };

    // The check that a space is a block long.
    fn check_space(&self, block: u32, space: &[u8]) -> Result<(), MemoryRefusal>
        ensures { result ≡ spaced (model self.now) block space.now (Ok tt) }
    {
        if space.len() == self.block_length().bytes() {
            Ok(())
        } else {
            Err(MemoryRefusal::WrongSpace { block })
        }
    }

    // The check that the block is there.
    fn check_block(&self, block: u32) -> Result<(), MemoryRefusal>
        ensures { result ≡ present (model self.now) block (Ok tt) }
    {
        if block < self.block_count() {
            Ok(())
        } else {
            Err(MemoryRefusal::Absent { block })
        }
    }

    // The check that the block is there and not locked.
    fn check_open(&self, block: u32) -> Result<(), MemoryRefusal>
        ensures { result ≡ present (model self.now) block (unlocked (model self.now) block (Ok tt)) }
    {
        if self.is_locked(block)? {
            return Err(MemoryRefusal::Locked { block });
        }
        Ok(())
    }

    // Whether the block is locked.
    fn is_locked(&self, block: u32) -> Result<bool, MemoryRefusal>
        ensures { TellsLock (model self.now) block result };

    // Reads the block into a space of its length.
    fn read(&self, block: u32, space: &mut [u8]) -> Result<(), MemoryRefusal>
        ensures { Reads (model self.now) block space.old space.new result };

    // Replaces the block whole.
    fn write(&mut self, block: u32, bytes: &[u8]) -> Result<(), MemoryRefusal>
        ensures { Writes (model self.old) (model self.new) block bytes.now result };

    // Locks the block for good.
    fn lock(&mut self, block: u32) -> Result<(), MemoryRefusal>
        ensures { Locks (model self.old) (model self.new) block result };

    ghost sound: { (m : Self) → Sound (model m) };
}
