// Detection: a tag that is sighted becomes one whose message is found.
ghost use Rattle.std.specs.Prelude.{◌≡◌};
ghost use Rattle.t5t.specs.Air.{air_of};
ghost use Rattle.t5t.specs.Detects.{Detects, place_of};
ghost use Rattle.t5t.specs.Laws.{DetectionLaws};

use crate::call::Call;
use crate::link::Link;
use crate::session::{Detected, Session, Sighted};
use crate::stop::Stop;
use field::Field;
use memory::BlockLength;
use refusal::Refusal;
use shown::Place;
use std::marker::PhantomData;
use tag::{Uid, check_space};

// What a detection gives: a session, and how many frames were sent.
#[derive(Drop)]
pub struct Found {
    pub session: Detected,
    pub exchanges: u64,
}

// A detection that is refused gives the sighted tag back.
#[derive(Drop)]
pub struct NotFound {
    pub session: Sighted,
    pub refusal: Refusal,
}

impl Sighted {
    pub fn new(uid: Uid) -> Sighted
        ensures { result.uid ≡ uid }
    {
        Sighted { uid }
    }

    // Finds the tag's message as the procedure says.
    fn find<F: Field>(self, field: &mut F, space: &mut [u8]) -> Result<Found, NotFound>
        ensures { Detects self.uid.0 (air_of F.tags field.old space.old) (air_of F.tags field.new space.new) result }
    {
        let uid = self.uid;
        if check_space(space).is_err() {
            return Err(NotFound {
                session: self,
                refusal: Stop::ANSWER_SPACE_SHORT.refusal(0),
            });
        }
        let link = Link {
            uid,
            unit: BlockLength::Four,
            kept: None,
            exchanges: 0,
        };
        let mut call = Call { field, space, link };
        match call.locate() {
            Ok(place) => Ok(Found {
                session: Session {
                    uid,
                    unit: call.link.unit,
                    place,
                    state: PhantomData,
                },
                exchanges: call.link.exchanges,
            }),
            Err(stop) => Err(NotFound {
                session: self,
                refusal: stop.refusal(call.link.exchanges),
            }),
        }
    }

    // What it then promises in the words of tags and messages. A function of its own for the reason that reading has.
    fn find_lawfully<F: Field>(self, field: &mut F, space: &mut [u8]) -> Result<Found, NotFound>
        ensures detects { Detects self.uid.0 (air_of F.tags field.old space.old) (air_of F.tags field.new space.new) result }
        ensures laws { DetectionLaws self.uid.0 (air_of F.tags field.old space.old) (air_of F.tags field.new space.new) result }
    {
        self.find(field, space)
    }

    // Finds the tag's message.
    pub fn detect<F: Field>(self, field: &mut F, space: &mut [u8]) -> Result<Found, NotFound>
        ensures detects { Detects self.uid.0 (air_of F.tags field.old space.old) (air_of F.tags field.new space.new) result }
        ensures laws { DetectionLaws self.uid.0 (air_of F.tags field.old space.old) (air_of F.tags field.new space.new) result }
    {
        self.find_lawfully(field, space)
    }
}

impl Detected {
    // The block length that the first answer told.
    pub fn block_length(&self) -> BlockLength
        ensures { result ≡ (place_of self.now).0 }
    {
        self.unit
    }

    // Where the message TLV lies.
    pub fn place(&self) -> Place
        ensures { result ≡ (place_of self.now).1 }
    {
        self.place
    }
}
