// Where messages are made: the records to compose, and the current message.
ghost use Rattle.std.specs.Prelude.{◌≡◌, take, vec_len, IfOk, Ok, OnErr, OnOk};
ghost use Rattle.gate.specs.Desks.{OneMore, SameDesk};
ghost use Rattle.gate.specs.Drafts.{Empty};
ghost use Rattle.gate.specs.Receiving.{Receives};

use crate::answer::Answer;
use crate::draft::Draft;
use crate::fields::Fields;
use crate::hex::Hex;
use crate::line_error::LineError;
use crate::listing::Listing;
use crate::refused::Refusal;
use crate::walk::Walk;
use ndef::Format;
use std::alloc::Global;
use t5t::Received;

#[derive(Drop)]
pub struct Desk {
    heap: Global,
    // what the next message is composed of
    draft: Draft,
    // the current message
    message: Vec<u8>,
}

// What a text record's payload begins with: UTF-8, and a language of two letters.
const ENGLISH: [u8; 3] = [0x02, b'e', b'n'];

impl Desk {
    pub fn new(heap: Global) -> Desk
        ensures draft { Empty result.draft }
        ensures message { vec_len result.message ≡ 0 }
    {
        Desk {
            heap,
            draft: Draft::new(heap),
            message: Vec::new(heap),
        }
    }

    // Adds a house's record to those that are to be composed.
    pub fn add_house(&mut self, walk: Walk, text: &[u8]) -> Result<Answer, LineError>
        ensures unchanged { OnErr result (SameDesk self.old self.new) }
        ensures added { IfOk result (λ a. (a ≡ Answer.HouseAdded walk) × OneMore self.old self.new) }
    {
        let mut payload = Vec::from_slice(self.heap, &ENGLISH)?;
        payload.extend_from_slice(text)?;
        self.draft.add(Fields {
            format: Format::WellKnown,
            kind: b"T",
            id: &walk.digits(),
            payload: payload.as_slice(),
        })?;
        Ok(Answer::HouseAdded { walk })
    }

    // Adds a record to them.
    pub fn add_record(&mut self, fields: Fields<Vec<u8>>) -> Result<Answer, LineError>
        ensures unchanged { OnErr result (SameDesk self.old self.new) }
        ensures added { IfOk result (λ a. (a ≡ Answer.RecordAdded fields.format) × OneMore self.old self.new) }
    {
        self.draft.add(fields.as_slices())?;
        Ok(Answer::RecordAdded {
            format: fields.format,
        })
    }

    // Composes the records, which are let go, composed or refused.
    pub fn compose(&mut self, room: usize) -> Result<Answer, LineError>
        ensures unchanged { OnErr result (SameDesk self.old self.new) }
        ensures let_go { OnOk result (Empty self.new.draft) }
        ensures kept { IfOk result (λ a. (x : Refusal) → a ≡ Answer.Refused x → self.new.message ≡ self.old.message) }
    {
        let mut space = vec![in self.heap; 0; room]?;
        let composed = self.draft.compose(space.as_mut_slice());
        self.draft.clear();
        match composed {
            Ok(length) => {
                self.adopt(space, length);
                Ok(Answer::Composed { length })
            }
            Err(refusal) => Ok(Answer::Refused {
                refusal: refusal.into(),
            }),
        }
    }

    pub fn recompose(&mut self, room: usize) -> Result<Answer, LineError>
        ensures unchanged { OnErr result (SameDesk self.old self.new) }
        ensures kept { IfOk result (λ a. (x : Refusal) → a ≡ Answer.Refused x → self.new.message ≡ self.old.message) }
    {
        let mut space = vec![in self.heap; 0; room]?;
        match composer::recompose(self.message.as_slice(), space.as_mut_slice()) {
            Ok(length) => {
                self.adopt(space, length);
                Ok(Answer::Recomposed { length })
            }
            Err(refusal) => Ok(Answer::Refused {
                refusal: refusal.into(),
            }),
        }
    }

    // Makes the front of the space the current message.
    fn adopt(&mut self, mut space: Vec<u8>, length: usize)
        ensures draft { self.new.draft ≡ self.old.draft }
        ensures message { self.new.message.items ≡ take length space.items }
    {
        space.truncate(length);
        self.message = space;
    }

    pub fn set_message(&mut self, message: Vec<u8>) -> Answer
        ensures { self.new.message ≡ message }
    {
        self.message = message;
        Answer::MessageSet {
            length: self.message.len(),
        }
    }

    // Makes what was read the current message; the copy, which is as long, is answered.
    pub fn receive(&mut self, received: Received, message: Vec<u8>, mut copy: Vec<u8>) -> Answer
        requires { vec_len copy ≡ vec_len message }
        ensures received { Receives (Ok received) message.items self.old self.new result }
        ensures draft { self.new.draft ≡ self.old.draft }
    {
        copy.copy_from_slice(message.as_slice());
        copy.truncate(received.length);
        self.adopt(message, received.length);
        Answer::MessageRead {
            message: copy,
            exchanges: received.exchanges,
        }
    }

    pub fn list(&self) -> Result<Answer, LineError> {
        let listing = Listing::of(self.heap, self.message.as_slice())?;
        Ok(Answer::Records { listing })
    }

    pub fn show(&self) -> Result<Answer, LineError> {
        let hex = format!(in self.heap; "{}", Hex(self.message.as_slice()))?;
        Ok(Answer::Message { hex })
    }
}
