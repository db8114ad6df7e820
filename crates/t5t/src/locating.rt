// Finding a tag's message.
ghost use Rattle.std.specs.Prelude.{◌≡◌, ◌+◌, ◌≤◌, IfOk};
ghost use Rattle.memory.specs.BlockLength.{bytes_of};
ghost use Rattle.procedure.specs.Procedure.{Performs};
ghost use Rattle.shown.specs.Container.{limit};
ghost use Rattle.t5t.specs.Calls.{air_in, SameAir};
ghost use Rattle.t5t.specs.Detection.{with_unit, detection, FirstRead, unit_by};

use crate::call::Call;
use crate::kept::Kept;
use crate::stop::Stop;
use field::{Field, Heard};
use memory::BlockLength;
use refusal::Step;
use shown::Place;

// The block length that an answer tells.
fn unit_of(heard: Heard) -> BlockLength
    ensures { result ≡ unit_by heard }
{
    let Heard::One(length) = heard else {
        return BlockLength::Four;
    };
    BlockLength::try_from(length.saturating_sub(1)).unwrap_or(BlockLength::Four)
}

impl<F: Field> Call<'_, F> {
    // Reads block 0, which tells the block length.
    fn first_block(&mut self) -> Result<Kept, Stop>
        requires { self.old.link.exchanges ≡ 0 }
        ensures read { FirstRead self.old.link self.new.link (air_in self.old) (air_in self.new) result }
        ensures first { IfOk result (λ k. k.number ≡ 0) }
        ensures few { self.new.link.exchanges ≡ 1 }
        ensures air { SameAir self.old self.new }
    {
        let heard = self.send_read(0);
        self.link.unit = unit_of(heard);
        self.keep(Step::Container, 0, heard)
    }

    // Where the message is.
    pub(crate) fn locate(&mut self) -> Result<Place, Stop>
        requires { self.old.link.exchanges ≡ 0 }
        ensures located { Performs (detection self.old.link.uid.0) (air_in self.old) (air_in self.new) (with_unit result self.new.link.unit) 0 self.new.link.exchanges }
        ensures within { IfOk result (λ p. (p.container.begin ≤ p.at) × (p.at + 2 ≤ p.container.end) × (p.container.end ≤ limit p.container.header (bytes_of self.new.link.unit))) }
        ensures uid { self.new.link.uid ≡ self.old.link.uid }
        ensures air { SameAir self.old self.new }
    {
        let block = self.first_block()?;
        let container = self.container(block)?;
        self.walk(container)
    }
}
