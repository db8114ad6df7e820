// Blocks and bytes of a tag, the block last read being kept.
ghost use Rattle.std.specs.Prelude.{◌≡◌, ◌+◌, ◌*◌, ◌<◌, ◌≤◌};
ghost use Rattle.memory.specs.BlockLength.{bytes_of};
ghost use Rattle.shown.specs.Asks.{just_byte};
ghost use Rattle.t5t.specs.Asking.{replied, received, kept_at, kept_after, BlockRead, Had, Asked};
ghost use Rattle.t5t.specs.Calls.{air_in, SameAir, keeping};
ghost use Rattle.t5t.specs.Heard.{InSpace, reply_by};

use crate::call::Call;
use crate::exchange::receive;
use crate::kept::Kept;
use crate::link::Link;
use crate::stop::Stop;
use field::{Field, Heard};
use refusal::Step;

impl Link {
    // The block that is kept, if it has that number.
    fn kept_at(&self, number: u16) -> Option<Kept>
        ensures { result ≡ kept_at self.now.kept number }
    {
        self.kept.filter(|kept| kept.number == number)
    }
}

impl<F: Field> Call<'_, F> {
    // Keeps the block in the answer that was heard.
    pub(crate) fn keep(&mut self, step: Step, number: u16, heard: Heard) -> Result<Kept, Stop>
        requires { InSpace heard self.old.space.now }
        ensures answer { result ≡ received step number (replied (bytes_of self.old.link.unit) (reply_by heard self.old.space.now)) }
        ensures link { self.new.link ≡ keeping self.old.link (kept_after result self.old.link.kept) }
        ensures stays { air_in self.new ≡ air_in self.old }
        ensures air { SameAir self.old self.new }
    {
        let space = &mut *self.space;
        let block = receive(heard, space, self.link.unit.bytes()).map_err(|cause| Stop {
            cause,
            step,
            block: u32::from(number),
        })?;
        let kept = Kept::new(number, block);
        self.link.kept = Some(kept);
        Ok(kept)
    }

    // Reads a block, which is kept then.
    fn read_block(&mut self, step: Step, number: u16) -> Result<Kept, Stop>
        requires { self.old.link.exchanges ≤ 4294967296 }
        ensures read { BlockRead step number self.old.link self.new.link (air_in self.old) (air_in self.new) result }
        ensures few { self.new.link.exchanges ≤ self.old.link.exchanges + 1 }
        ensures air { SameAir self.old self.new }
    {
        let heard = self.send_read(number);
        self.keep(step, number, heard)
    }

    // The block of that number: the one that is kept, or it is read.
    pub(crate) fn block(&mut self, step: Step, number: u16) -> Result<Kept, Stop>
        requires { self.old.link.exchanges ≤ 4294967296 }
        ensures had { Had step number self.old.link self.new.link (air_in self.old) (air_in self.new) result }
        ensures few { self.new.link.exchanges ≤ self.old.link.exchanges + 1 }
        ensures air { SameAir self.old self.new }
    {
        match self.link.kept_at(number) {
            Some(kept) => Ok(kept),
            None => self.read_block(step, number),
        }
    }

    // The byte at an address.
    pub(crate) fn byte(&mut self, step: Step, at: u32) -> Result<u8, Stop>
        requires known { at < 65536 * bytes_of self.old.link.unit }
        requires few { self.old.link.exchanges ≤ 4294967296 }
        ensures asked { Asked step (just_byte at) self.old.link self.new.link (air_in self.old) (air_in self.new) result }
        ensures few { self.new.link.exchanges ≤ self.old.link.exchanges + 1 }
        ensures air { SameAir self.old self.new }
    {
        let unit = self.link.unit.bytes() as u32;
        let kept = self.block(step, (at / unit) as u16)?;
        Ok(kept.bytes[(at % unit) as usize])
    }
}
