// One exchange, and what comes back of it.
ghost use Rattle.std.specs.Prelude.{◌≡◌, ◌≤◌};
ghost use Rattle.field.specs.Exchange.{Exchange};
ghost use Rattle.procedure.specs.Frames.{read_frame};
ghost use Rattle.t5t.specs.Heard.{InSpace, reply_by, Receives};
ghost use Rattle.t5t.specs.Asking.{replied};
ghost use Rattle.t5t.specs.Calls.{SameAir, one_more};

use crate::call::Call;
use field::{Field, Heard, decode};
use frames::Frame;
use refusal::Cause;

impl<F: Field> Call<'_, F> {
    // Sends a frame that reads a block, and counts it.
    pub(crate) fn send_read(&mut self, block: u16) -> Heard
        requires { self.old.link.exchanges ≤ 4294967296 }
        ensures exchange { Exchange (F.tags self.old.field.now) (F.tags self.new.field.now) (read_frame self.old.link.uid.0 block) self.old.space.now self.new.space.now result }
        ensures link { self.new.link ≡ one_more self.old.link }
        ensures air { SameAir self.old self.new }
    {
        self.link.exchanges += 1;
        let frame = Frame::read(self.link.uid, block);
        // a space with room for every answer is not refused
        self.field.exchange(frame.bytes(), self.space).unwrap()
    }
}

// The data of the answer that was heard, which is to have so many bytes.
pub(crate) fn receive(heard: Heard, space: &[u8], expected: usize) -> Result<&[u8], Cause>
    requires { InSpace heard space.now }
    ensures { Receives result (replied expected (reply_by heard space.now)) }
{
    match heard {
        Heard::Nothing => Err(Cause::Lost),
        Heard::Several => Err(Cause::Several),
        Heard::One(length) => Ok(decode(&space[..length], expected)?),
    }
}
