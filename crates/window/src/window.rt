// The window: a run of the blocks of the memory below.
ghost use Rattle.std.specs.Prelude.{◌≡◌, ◌+◌, ◌<◌};
ghost use Rattle.memory.specs.Model.{Sound, count_of, with_block, with_lock};
ghost use Rattle.memory.specs.Calls.{Writes, Locks, after};
ghost use Rattle.window.specs.Window.{window_of};
ghost use Rattle.window.specs.Sound.{window_sound};

use memory::{BlockLength, Memory, MemoryRefusal};

#[derive(Drop)]
pub struct Window<M: Memory> {
    below: M,
    // the block below that is block 0
    first: u32,
    // how many blocks are shown, where the memory below has them
    count: u32,
}

impl<M: Memory> Window<M> {
    pub fn new(below: M, first: u32, count: u32) -> Window<M>
        ensures { result ≡ record { below = below; first = first; count = count } }
    {
        Window {
            below,
            first,
            count,
        }
    }

    // Gives the memory below back.
    pub fn into_inner(self) -> M
        ensures { result ≡ self.below }
    {
        let Window {
            below,
            first: _,
            count: _,
        } = self;
        below
    }

    // The block below that shows as this one; the memory below is sound, as each is.
    fn block_below(&self, block: u32) -> u32
        requires { block < count_of (window_of (M.model self.now.below) self.now.first self.now.count) }
        ensures below { result ≡ self.now.first + block }
        ensures sound { Sound (M.model self.now.below) }
    {
        self.first + block
    }

    // Right in the impl the proof didn't close without an answer, and then a wrong edit is refused at that answer and not
    // here: tried with the lemma both ways round, and with the whole of `Writes`.
    fn write_shown(&mut self, block: u32, bytes: &[u8]) -> Result<(), MemoryRefusal>
        ensures writes { Writes (window_of (M.model self.old.below) self.old.first self.old.count) (window_of (M.model self.new.below) self.new.first self.new.count) block bytes.now result }
        ensures under { M.model self.new.below ≡ after result (with_block (M.model self.old.below) (self.old.first + block) bytes.now) (M.model self.old.below) }
        ensures place { (self.new.first ≡ self.old.first) × (self.new.count ≡ self.old.count) }
    {
        self.check_space(block, bytes)?;
        self.check_block(block)?;
        let below = self.block_below(block);
        self.below
            .write(below, bytes)
            .map_err(|_| MemoryRefusal::Locked { block })
    }
}

impl<M: Memory> Memory for Window<M> {
    ghost model = { λ w. window_of (M.Memory.model w.below) w.first w.count };

    ghost sound = { λ m. window_sound (M.Memory.model m.below) (M.Memory.sound m.below) m.first m.count };

    fn block_length(&self) -> BlockLength {
        self.below.block_length()
    }

    // How many blocks are shown.
    fn block_count(&self) -> u32 {
        let rest = self.below.block_count().saturating_sub(self.first);
        self.count.min(rest)
    }

    // The window checks first whether space and block are there, as the memory below does, so that one refuses for a lock
    // alone, and each refusal carries the block as it was asked of the window. The lock itself it leaves to that memory: asked
    // here too, each window of a pile would ask all those below it once more.
    fn is_locked(&self, block: u32) -> Result<bool, MemoryRefusal> {
        self.check_block(block)?;
        let below = self.block_below(block);
        self.below.is_locked(below)
    }

    #[tactic(auto, using(crate::proofs::Windows::window_block, std::proofs::lemmas::Grind::common_steps))]
    fn read(&self, block: u32, space: &mut [u8]) -> Result<(), MemoryRefusal> {
        self.check_space(block, space)?;
        self.check_block(block)?;
        let below = self.block_below(block);
        self.below.read(below, space)
    }

    fn write(&mut self, block: u32, bytes: &[u8]) -> Result<(), MemoryRefusal>
        ensures writes { Writes (window_of (M.Memory.model self.old.below) self.old.first self.old.count) (window_of (M.Memory.model self.new.below) self.new.first self.new.count) block bytes.now result }
        ensures under { M.Memory.model self.new.below ≡ after result (with_block (M.Memory.model self.old.below) (self.old.first + block) bytes.now) (M.Memory.model self.old.below) }
        ensures place { (self.new.first ≡ self.old.first) × (self.new.count ≡ self.old.count) }
    {
        self.write_shown(block, bytes)
    }

    #[tactic(auto, using(crate::proofs::Windows::window_set, std::proofs::lemmas::Grind::common_steps))]
    fn lock(&mut self, block: u32) -> Result<(), MemoryRefusal>
        ensures locks { Locks (window_of (M.Memory.model self.old.below) self.old.first self.old.count) (window_of (M.Memory.model self.new.below) self.new.first self.new.count) block result }
        ensures under { M.Memory.model self.new.below ≡ after result (with_lock (M.Memory.model self.old.below) (self.old.first + block)) (M.Memory.model self.old.below) }
        ensures place { (self.new.first ≡ self.old.first) × (self.new.count ≡ self.old.count) }
    {
        self.check_block(block)?;
        let below = self.block_below(block);
        self.below
            .lock(below)
            .map_err(|_| MemoryRefusal::Locked { block })
    }
}
