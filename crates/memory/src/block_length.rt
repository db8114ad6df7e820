// How many bytes a block has.
ghost use Rattle.std.specs.Prelude.{◌≡◌};
ghost use Rattle.memory.specs.BlockLength.{bytes_of, listed, whole_blocks};

use crate::refusal::MemoryRefusal;

#[derive(Clone, Copy, PartialEq, Eq, Debug)]
pub enum BlockLength {
    Four = 4,
    Eight = 8,
    Sixteen = 16,
    ThirtyTwo = 32,
}

// The one check that makes a block length of a number.
impl TryFrom<usize> for BlockLength {
    type Error = MemoryRefusal;

    ghost try_from_gives = { λ length result. result ≡ listed length };

    fn try_from(length: usize) -> Result<BlockLength, MemoryRefusal> {
        match length {
            4 => Ok(BlockLength::Four),
            8 => Ok(BlockLength::Eight),
            16 => Ok(BlockLength::Sixteen),
            32 => Ok(BlockLength::ThirtyTwo),
            _ => Err(MemoryRefusal::NotListed),
        }
    }
}

impl BlockLength {
    pub fn bytes(self) -> usize
        ensures { result ≡ bytes_of self }
    {
        self as usize
    }

    // How many whole blocks so many bytes have, and at most so many.
    pub fn whole_blocks(self, bytes: usize, most: u32) -> u32
        ensures { result ≡ whole_blocks (bytes_of self) bytes most }
    {
        (bytes / self.bytes()).min(most as usize) as u32
    }
}
