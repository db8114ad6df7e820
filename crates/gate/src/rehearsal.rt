// A rehearsal: what a script has made so far, and how each command changes it.
ghost use Rattle.std.specs.Prelude.{◌≡◌, ◌<◌, IfOk, Ok, vec_len, vec_capacity, OnErr};
ghost use Rattle.gate.specs.Detecting.{Detecting, Finds};
ghost use Rattle.gate.specs.Receiving.{Receiving};
ghost use Rattle.gate.specs.Rehearsals.{Unchanged};
ghost use Rattle.gate.specs.Running.{Runs};

use crate::answer::Answer;
use crate::command;
use crate::command::Command;
use crate::desk::Desk;
use crate::kept_session::KeptSession;
use crate::line_error::LineError;
use crate::session::Session;
use crate::tags::Tags;
use std::alloc::Global;
use t5t::Found;
use tag::{LONGEST_ANSWER, Uid};

#[derive(Drop)]
pub struct Rehearsal {
    heap: Global,
    desk: Desk,
    tags: Tags,
    // those that detections have found, in order
    sessions: Vec<Session>,
}

// What an error leaves is one named fact, `Unchanged`; what changes one part alone is a method of that part.
impl Rehearsal {
    pub fn new(heap: Global) -> Rehearsal {
        Rehearsal {
            heap,
            desk: Desk::new(heap),
            tags: Tags::new(heap),
            sessions: Vec::new(heap),
        }
    }

    // Runs the command that a line gives; an error leaves all as it was.
    pub fn perform(&mut self, line: &[u8]) -> Result<Answer, LineError>
        ensures { OnErr result (Unchanged self.old self.new) }
    {
        let command = command::parse(self.heap, line)?;
        self.run(command)
    }

    fn run(&mut self, command: Command) -> Result<Answer, LineError>
        ensures unchanged { OnErr result (Unchanged self.old self.new) }
        ensures done { IfOk result (λ a. Runs command.entry self.old self.new a) }
    {
        match command {
            Command::House { walk, text } => self.desk.add_house(walk, text),
            Command::Record { fields } => self.desk.add_record(fields),
            Command::Compose { room } => self.desk.compose(room),
            Command::Message { message } => Ok(self.desk.set_message(message)),
            Command::Recompose { room } => self.desk.recompose(room),
            Command::Records => self.desk.list(),
            Command::Show => self.desk.show(),
            Command::Tag { unit, tag } => self.tags.add_tag(unit, tag),
            Command::Bytes {
                uid,
                address,
                bytes,
            } => {
                self.tags.put_bytes(uid, address, bytes.as_slice())?;
                Ok(Answer::BytesPut { uid, address })
            }
            Command::Lock { uid, block } => {
                self.tags.lock(uid, block)?;
                Ok(Answer::Locked { uid, block })
            }
            Command::Span { uid, span } => {
                self.tags.set_span(uid, span)?;
                Ok(Answer::SpanSet { uid, span })
            }
            Command::Frame { frame } => self.tags.answer_to(frame.as_slice()),
            Command::Dump { uid } => {
                let lines = self.tags.dump(uid)?;
                Ok(Answer::Dumped { lines })
            }
            Command::Detect { uid } => self.detect(uid),
            Command::Read { session, room } => self.read(session, room),
        }
    }

    // Detects a tag; its session is kept.
    fn detect(&mut self, uid: Uid) -> Result<Answer, LineError>
        ensures unchanged { OnErr result (Unchanged self.old self.new) }
        ensures detected { IfOk result (λ a. Detecting uid.0 self.old self.new a) }
    {
        self.sessions.reserve(1)?;
        let mut space = [0; LONGEST_ANSWER];
        match self.tags.detect(uid, &mut space) {
            Ok(found) => Ok(self.keep(found)),
            Err(not_found) => Ok(Answer::Refused {
                refusal: not_found.into(),
            }),
        }
    }

    // Keeps the session of a tag that was found, for which there is room.
    fn keep(&mut self, found: Found) -> Answer
        requires { vec_len self.old.sessions < vec_capacity self.old.sessions }
        ensures kept { Finds (Ok found) self.old self.new result }
        ensures desk { self.new.desk ≡ self.old.desk }
        ensures tags { self.new.tags ≡ self.old.tags }
    {
        let session = KeptSession {
            number: self.sessions.len(),
            unit: found.session.block_length(),
            place: found.session.place(),
            exchanges: found.exchanges,
        };
        self.sessions
            .push_reserved(Session::Detected(found.session));
        Answer::SessionKept { session }
    }

    // Reads with a session, into a space of so many bytes; what is read is the current message.
    fn read(&mut self, number: usize, room: usize) -> Result<Answer, LineError>
        ensures unchanged { OnErr result (Unchanged self.old self.new) }
        ensures received { IfOk result (λ a. Receiving number room self.old self.new a) }
    {
        let session = self.sessions.get(number).ok_or(LineError::NoSession)?;
        let mut space = [0; LONGEST_ANSWER];
        let mut message = vec![in self.heap; 0; room]?;
        // Made before a frame is sent, so that want of memory changes nothing.
        let copy = vec![in self.heap; 0; room]?;
        match self.tags.read(session, &mut space, message.as_mut_slice()) {
            Ok(received) => Ok(self.desk.receive(received, message, copy)),
            Err(not_read) => Ok(Answer::Refused {
                refusal: not_read.into(),
            }),
        }
    }
}
