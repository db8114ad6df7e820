// The message of a tag whose message TLV is known.
ghost use Rattle.std.specs.Prelude.{◌≡◌, ◌+◌, ◌*◌, ◌≤◌};
ghost use Rattle.memory.specs.BlockLength.{bytes_of};
ghost use Rattle.t5t.specs.Calls.{air_in, SameAir};
ghost use Rattle.t5t.specs.Copied.{MessageRead};

use crate::call::Call;
use crate::copying::Broken;
use crate::tlvs::Tlvs;
use field::Field;
use refusal::{Cause, Step};
use shown::Place;

impl<F: Field> Tlvs<'_, '_, F> {
    // Reads the message whose TLV is next; its length.
    pub(crate) fn read_message(&mut self, message: &mut [u8]) -> Result<usize, Broken>
        requires { self.old.at + 2 ≤ self.old.container.end }
        ensures read { MessageRead self.old.container.end self.old.at self.old.call.now.link self.new.call.now.link (air_in self.old.call.now) (air_in self.new.call.now) message.old message.new result }
        ensures air { SameAir self.old.call.now self.new.call.now }
        ensures call { self.new.call.ghost_name ≡ self.old.call.ghost_name }
    {
        // behind its T
        self.at += 1;
        let value = self.length_field()?;
        if value.long == 0 {
            return Err(self.call.link.stop(Step::Walk, Cause::Empty).into());
        }
        if message.len() < value.long as usize {
            let short = Cause::MessageSpaceShort { length: value.long };
            return Err(self.call.link.stop(Step::Walk, short).into());
        }
        self.copy(value, message)?;
        Ok(value.long as usize)
    }
}

impl<F: Field> Call<'_, F> {
    // Reads the message whose TLV is at a place; its length.
    pub(crate) fn read_message(&mut self, place: Place, message: &mut [u8]) -> Result<usize, Broken>
        requires known { place.container.end ≤ 65536 * bytes_of self.old.link.unit }
        requires holds { place.at + 2 ≤ place.container.end }
        requires few { self.old.link.exchanges ≡ 0 }
        ensures read { MessageRead place.container.end place.at self.old.link self.new.link (air_in self.old) (air_in self.new) message.old message.new result }
        ensures air { SameAir self.old self.new }
    {
        let mut tlvs = Tlvs {
            call: self,
            container: place.container,
            at: place.at,
        };
        tlvs.read_message(message)
    }
}
