// Copying a value, block by block.
ghost use Rattle.std.specs.Prelude.{◌≡◌, ◌+◌, ◌≤◌, length, take, drop};
ghost use Rattle.space.specs.Space.{put as laid_at};
ghost use Rattle.t5t.specs.Calls.{air_in, SameAir};
ghost use Rattle.t5t.specs.Copied.{Copied};

use crate::kept::Kept;
use crate::stop::Stop;
use crate::tlvs::Tlvs;
use field::Field;
use refusal::Step;
use shown::Value;

// A copying that breaks off, with so many bytes got.
#[derive(Clone, Copy)]
pub(crate) struct Broken {
    pub(crate) stop: Stop,
    pub(crate) got: usize,
}

// Before a byte is got.
impl From<Stop> for Broken {
    ghost from_gives = { λ stop broken. broken ≡ record { stop = stop; got = 0 } };

    fn from(stop: Stop) -> Broken {
        Broken { stop, got: 0 }
    }
}

// Puts the bytes of a block from `from` on over those of the message at `at`.
fn put(message: &mut [u8], at: usize, block: &Kept, from: usize, count: usize)
    requires room { at + count ≤ length message.old }
    requires there { from + count ≤ 32 }
    ensures put { message.new ≡ laid_at message.old at (take count (drop from block.now.bytes)) }
    ensures long { length (take count (drop from block.now.bytes)) ≡ count }
{
    message[at..at + count].copy_from_slice(&block.bytes[from..from + count]);
}

impl<F: Field> Tlvs<'_, '_, F> {
    // Copies the value that is next over the front of the message space.
    pub(crate) fn copy(&mut self, value: Value, message: &mut [u8]) -> Result<(), Broken>
        requires next { value.at ≡ self.old.at }
        requires whole { value.at + value.long ≤ self.old.container.end }
        requires fits { value.long ≤ length message.old }
        ensures copied { Copied value self.old.call.now.link self.new.call.now.link (air_in self.old.call.now) (air_in self.new.call.now) message.old message.new result }
        ensures air { SameAir self.old.call.now self.new.call.now }
        ensures call { self.new.call.ghost_name ≡ self.old.call.ghost_name }
    {
        let unit = self.call.link.unit.bytes();
        let first = value.at as usize;
        let length = value.long as usize;
        let mut done = 0usize;
        // A step goes to the end of a block, so the first and the last may be shorter than the others: no chunks of one
        // length, and over block numbers each step would have to work out both of its ends.
        while done < length {
            let at = first + done;
            let count = (unit - at % unit).min(length - done);
            self.at += count as u32;
            let block = self
                .call
                .block(Step::Read, (at / unit) as u16)
                .map_err(|stop| Broken { stop, got: done })?;
            put(message, done, &block, at % unit, count);
            done += count;
        }
        Ok(())
    }
}
