// The capability container, from the block 0 that is kept.
ghost use Rattle.std.specs.Prelude.{◌≡◌, ◌+◌, ◌*◌, ◌≤◌, IfOk, Some};
ghost use Rattle.memory.specs.BlockLength.{bytes_of};
ghost use Rattle.shown.specs.Container.{limit, bounded, long_mlen, sized, container};
ghost use Rattle.t5t.specs.Asking.{Asked, stopped};
ghost use Rattle.t5t.specs.Calls.{air_in, SameAir};
ghost use Rattle.t5t.specs.Zeroth.{Behind};
ghost use Rattle.refusal.specs.declared.step.Step.TheVariants as Step;

use crate::call::Call;
use crate::kept::Kept;
use crate::link::Link;
use crate::stop::Stop;
use field::Field;
use frames::word;
use refusal::Step;
use shown::{Container, Header};

impl Link {
    // The container, if block numbers reach its end.
    fn bounded(&self, header: Header, long: bool, mlen: u16) -> Result<Container, Stop>
        ensures bounded { result ≡ stopped Step.Container self.now.kept (bounded header (bytes_of self.now.unit) long mlen) }
        ensures within { IfOk result (λ c. (c.begin ≤ c.end) × (4 ≤ c.begin) × (c.end ≤ limit c.header (bytes_of self.now.unit))) }
    {
        header
            .bounded(self.unit, long, mlen)
            .map_err(|flaw| self.stop(Step::Container, flaw.into()))
    }
}

impl<F: Field> Call<'_, F> {
    // MLEN of the long form, whose last four bytes stand in block 0 behind the header, or in block 1.
    fn long_mlen(&mut self, rest: &[u8]) -> Result<u16, Stop>
        requires behind { Behind self.old.link rest.now }
        requires few { self.old.link.exchanges ≤ 1 }
        ensures asked { Asked Step.Container long_mlen self.old.link self.new.link (air_in self.old) (air_in self.new) result }
        ensures few { self.new.link.exchanges ≤ self.old.link.exchanges + 2 }
        ensures air { SameAir self.old self.new }
    {
        if let [_, _, high, low, ..] = rest {
            return Ok(word(*high, *low));
        }
        let high = self.byte(Step::Container, 6)?;
        let low = self.byte(Step::Container, 7)?;
        Ok(word(high, low))
    }

    // Where the TLVs are, once the header is checked.
    fn sized(&mut self, header: Header, rest: &[u8]) -> Result<Container, Stop>
        requires behind { Behind self.old.link rest.now }
        requires few { self.old.link.exchanges ≤ 1 }
        ensures asked { Asked Step.Container (sized (bytes_of self.old.link.unit) header) self.old.link self.new.link (air_in self.old) (air_in self.new) result }
        ensures few { self.new.link.exchanges ≤ self.old.link.exchanges + 2 }
        ensures air { SameAir self.old self.new }
        ensures within { IfOk result (λ c. (c.begin ≤ c.end) × (4 ≤ c.begin) × (c.end ≤ limit c.header (bytes_of self.old.link.unit))) }
    {
        if header.mlen != 0 {
            return self.link.bounded(header, false, u16::from(header.mlen));
        }
        let mlen = self.long_mlen(rest)?;
        self.link.bounded(header, true, mlen)
    }

    // The container, of which the first four bytes stand in block 0.
    pub(crate) fn container(&mut self, block: Kept) -> Result<Container, Stop>
        requires kept { self.old.link.kept ≡ Some block }
        requires first { block.number ≡ 0 }
        requires few { self.old.link.exchanges ≤ 1 }
        ensures asked { Asked Step.Container (container (bytes_of self.old.link.unit)) self.old.link self.new.link (air_in self.old) (air_in self.new) result }
        ensures few { self.new.link.exchanges ≤ self.old.link.exchanges + 2 }
        ensures air { SameAir self.old self.new }
        ensures within { IfOk result (λ c. (c.begin ≤ c.end) × (4 ≤ c.begin) × (c.end ≤ limit c.header (bytes_of self.old.link.unit))) }
    {
        // each block length is four at least
        let &[magic, access, mlen, features, ref rest @ ..] = &block.bytes[..self.link.unit.bytes()]
        else {
            unreachable!();
        };
        let header = Header {
            magic,
            access,
            mlen,
            features,
        };
        let header = header
            .checked()
            .map_err(|flaw| self.link.stop(Step::Container, flaw.into()))?;
        self.sized(header, rest)
    }
}
