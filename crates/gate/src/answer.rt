// What is printed of a command that was run.
ghost use Rattle.gate.specs.Hearings.{Tells};

use crate::hex::Hex;
use crate::kept_session::KeptSession;
use crate::listing::Listing;
use crate::refused::Refusal;
use crate::walk::Walk;
use field::{Heard, Span};
use ndef::Format;
use std::fmt;
use tag::Uid;

#[derive(Drop)]
pub enum Answer {
    HouseAdded { walk: Walk },
    RecordAdded { format: Format },
    Composed { length: usize },
    MessageSet { length: usize },
    Recomposed { length: usize },
    Records { listing: Listing },
    Message { hex: String },
    TagAdded { uid: Uid },
    BytesPut { uid: Uid, address: usize },
    Locked { uid: Uid, block: usize },
    SpanSet { uid: Uid, span: Span },
    Silence,
    OneAnswer { answer: Vec<u8> },
    SeveralAnswers,
    Dumped { lines: String },
    SessionKept { session: KeptSession },
    MessageRead { message: Vec<u8>, exchanges: u64 },
    // An answer and no error, so each call that may be refused matches and `?` passes none on: it may have let the draft
    // go, and an error leaves all as it was.
    Refused { refusal: Refusal },
}

impl Answer {
    // What came of a frame; a single answer lies in the front of the space.
    pub fn of_heard(heard: Heard, mut space: Vec<u8>) -> Answer
        ensures { Tells heard space.items result }
    {
        match heard {
            Heard::Nothing => Answer::Silence,
            Heard::One(length) => {
                space.truncate(length);
                Answer::OneAnswer { answer: space }
            }
            Heard::Several => Answer::SeveralAnswers,
        }
    }
}

impl fmt::Display for Answer {
    fn fmt<W: fmt::Write>(&self, f: &mut fmt::Formatter<W>) -> fmt::Result {
        match self {
            Answer::HouseAdded { walk } => write!(f, "house {walk}"),
            Answer::RecordAdded { format } => write!(f, "record {}", format.number()),
            Answer::Composed { length } => write!(f, "composed {length} bytes"),
            Answer::MessageSet { length } => write!(f, "message {length} bytes"),
            Answer::Recomposed { length } => write!(f, "recomposed {length} bytes"),
            Answer::Records { listing } => write!(f, "{listing}"),
            Answer::Message { hex } => write!(f, "message {hex}"),
            Answer::TagAdded { uid } => write!(f, "tag {uid}"),
            Answer::BytesPut { uid, address } => write!(f, "bytes {uid} {address}"),
            Answer::Locked { uid, block } => write!(f, "lock {uid} {block}"),
            Answer::SpanSet { uid, span } => write!(f, "span {uid} {span}"),
            Answer::Silence => f.write_str("none"),
            Answer::OneAnswer { answer } => write!(f, "one {}", Hex(answer.as_slice())),
            Answer::SeveralAnswers => f.write_str("several"),
            Answer::Dumped { lines } => f.write_str(lines.as_str()),
            Answer::SessionKept { session } => write!(f, "{session}"),
            Answer::MessageRead { message, exchanges } => {
                let length = message.len();
                let hex = Hex(message.as_slice());
                write!(f, "read {length} {hex} exchanges {exchanges}")
            }
            Answer::Refused { refusal } => write!(f, "{refusal}"),
        }
    }
}
