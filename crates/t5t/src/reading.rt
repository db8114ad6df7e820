// Reading the message of a tag that was detected.
ghost use Rattle.std.specs.Prelude.{◌≡◌, ◌+◌, ◌*◌, ◌≤◌, None};
ghost use Rattle.memory.specs.BlockLength.{bytes_of};
ghost use Rattle.t5t.specs.Air.{air_of};
ghost use Rattle.t5t.specs.Calls.{air_in, SameAir};
ghost use Rattle.t5t.specs.Laws.{ReadingLaws};
ghost use Rattle.t5t.specs.Reads.{Reads};

use crate::call::Call;
use crate::link::Link;
use crate::session::Session;
use crate::stop::Stop;
use field::Field;
use refusal::Refusal;
use shown::Place;
use tag::check_space;

// A message that was read: so many bytes in the front of the message space, which is the caller's.
#[derive(Clone, Copy, PartialEq, Eq, Debug)]
pub struct Received {
    pub length: usize,
    pub exchanges: u64,
}

// A reading that is refused: so many bytes were got, and lie in the front of the message space.
#[derive(Clone, Copy, PartialEq, Eq, Debug)]
pub struct NotRead {
    pub refusal: Refusal,
    pub got: usize,
}

impl<F: Field> Call<'_, F> {
    // Reads the message whose TLV is at a place, as the procedure says.
    fn read(&mut self, place: Place, message: &mut [u8]) -> Result<Received, NotRead>
        requires known { place.container.end ≤ 65536 * bytes_of self.old.link.unit }
        requires holds { place.at + 2 ≤ place.container.end }
        requires begins { (self.old.link.kept ≡ None) × (self.old.link.exchanges ≡ 0) }
        ensures reads { Reads self.old.link.uid.0 (bytes_of self.old.link.unit) place.container.end place.at (air_in self.old) (air_in self.new) message.old message.new result }
        ensures air { SameAir self.old self.new }
    {
        let read = self.read_message(place, message);
        let exchanges = self.link.exchanges;
        match read {
            Ok(length) => Ok(Received { length, exchanges }),
            Err(broken) => Err(NotRead {
                refusal: broken.stop.refusal(exchanges),
                got: broken.got,
            }),
        }
    }
}

impl<S> Session<S> {
    // Reads as the procedure says.
    fn read_there<F: Field>(
        &self,
        field: &mut F,
        space: &mut [u8],
        message: &mut [u8],
    ) -> Result<Received, NotRead>
        ensures { Reads self.now.uid.0 (bytes_of self.now.unit) self.now.place.container.end self.now.place.at (air_of F.tags field.old space.old) (air_of F.tags field.new space.new) message.old message.new result }
    {
        if check_space(space).is_err() {
            let refusal = Stop::ANSWER_SPACE_SHORT.refusal(0);
            return Err(NotRead { refusal, got: 0 });
        }
        let link = Link {
            uid: self.uid,
            unit: self.unit,
            kept: None,
            exchanges: 0,
        };
        let mut call = Call { field, space, link };
        call.read(self.place, message)
    }

    // What it then promises in the words of tags and messages. A function of its own, since its proof has an answer: a wrong
    // edit of the public one has to be refused there and not at that answer, which is a rule of the project.
    fn read_lawfully<F: Field>(
        &self,
        field: &mut F,
        space: &mut [u8],
        message: &mut [u8],
    ) -> Result<Received, NotRead>
        ensures reads { Reads self.now.uid.0 (bytes_of self.now.unit) self.now.place.container.end self.now.place.at (air_of F.tags field.old space.old) (air_of F.tags field.new space.new) message.old message.new result }
        ensures laws { ReadingLaws self.now.uid.0 (bytes_of self.now.unit) self.now.place (air_of F.tags field.old space.old) (air_of F.tags field.new space.new) message.old message.new result }
    {
        self.read_there(field, space, message)
    }

    // Reads the message into the front of the message space.
    pub fn read<F: Field>(
        &self,
        field: &mut F,
        space: &mut [u8],
        message: &mut [u8],
    ) -> Result<Received, NotRead>
        ensures reads { Reads self.now.uid.0 (bytes_of self.now.unit) self.now.place.container.end self.now.place.at (air_of F.tags field.old space.old) (air_of F.tags field.new space.new) message.old message.new result }
        ensures laws { ReadingLaws self.now.uid.0 (bytes_of self.now.unit) self.now.place (air_of F.tags field.old space.old) (air_of F.tags field.new space.new) message.old message.new result }
    {
        self.read_lawfully(field, space, message)
    }
}
