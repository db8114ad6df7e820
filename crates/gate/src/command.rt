// The commands of a script; each is a line.
ghost use Rattle.std.specs.Prelude.{◌≡◌, ◌≤◌, IfOk};
ghost use Rattle.gate.specs.Digits.{spelled};

use crate::fields::Fields;
use crate::line_error::LineError;
use crate::new_tag::NewTag;
use crate::walk::Walk;
use crate::words::Words;
use crate::{span, uid, words};
use field::Span;
use ndef::Format;
use std::alloc::Global;
use std::mem;
use tag::{Marks, Uid};

#[derive(Drop)]
pub enum Command<'a> {
    // house WALK TEXT..
    House {
        walk: Walk,
        text: &'a [u8],
    },
    // record TNF TYPE ID PAYLOAD
    Record {
        fields: Fields<Vec<u8>>,
    },
    // compose [ROOM]
    Compose {
        room: usize,
    },
    // message HEX
    Message {
        message: Vec<u8>,
    },
    // recompose [ROOM]
    Recompose {
        room: usize,
    },
    // records
    Records,
    // show
    Show,
    // tag UID B N [wide] [multi] [lockable] [special] [span S]
    Tag {
        unit: usize,
        tag: NewTag,
    },
    // bytes UID ADDRESS HEX
    Bytes {
        uid: Uid,
        address: usize,
        bytes: Vec<u8>,
    },
    // lock UID BLOCK
    Lock {
        uid: Uid,
        block: usize,
    },
    // span UID S
    Span {
        uid: Uid,
        span: Span,
    },
    // frame HEX
    Frame {
        frame: Vec<u8>,
    },
    // dump UID
    Dump {
        uid: Uid,
    },
    // detect UID
    Detect {
        uid: Uid,
    },
    // read K [ROOM]
    Read {
        session: usize,
        room: usize,
    },
}

// The most blocks that a tag has.
const MOST_BLOCKS: usize = 65_536;

// The command that a line gives.
pub fn parse(heap: Global, line: &[u8]) -> Result<Command<'_>, LineError> {
    let mut words = Words::new(line);
    let command = match words.name()? {
        "house" => house(&mut words)?,
        "record" => record(heap, &mut words)?,
        "compose" => Command::Compose {
            room: room(&mut words)?,
        },
        "message" => Command::Message {
            message: bytes(heap, &mut words)?,
        },
        "recompose" => Command::Recompose {
            room: room(&mut words)?,
        },
        "records" => Command::Records,
        "show" => Command::Show,
        "tag" => new_tag(&mut words)?,
        "bytes" => Command::Bytes {
            uid: uid(&mut words)?,
            address: number(&mut words)?,
            bytes: bytes(heap, &mut words)?,
        },
        "lock" => Command::Lock {
            uid: uid(&mut words)?,
            block: number(&mut words)?,
        },
        "span" => Command::Span {
            uid: uid(&mut words)?,
            span: span(&mut words)?,
        },
        "frame" => Command::Frame {
            frame: bytes(heap, &mut words)?,
        },
        "dump" => Command::Dump {
            uid: uid(&mut words)?,
        },
        "detect" => Command::Detect {
            uid: uid(&mut words)?,
        },
        "read" => Command::Read {
            session: number(&mut words)?,
            room: room(&mut words)?,
        },
        _ => return Err(LineError::UnknownCommand),
    };
    words.finish()?;
    Ok(command)
}

fn house<'a>(words: &mut Words<'a>) -> Result<Command<'a>, LineError> {
    let walk = Walk::try_from(words.needed()?)?;
    let text = words.take_rest().ok_or(LineError::MissingText)?;
    if text.is_empty() {
        return Err(LineError::MissingText);
    }
    Ok(Command::House { walk, text })
}

fn record<'a>(heap: Global, words: &mut Words<'a>) -> Result<Command<'a>, LineError> {
    let fields = Fields {
        format: format(words)?,
        kind: bytes(heap, words)?,
        id: bytes(heap, words)?,
        payload: bytes(heap, words)?,
    };
    Ok(Command::Record { fields })
}

fn new_tag<'a>(words: &mut Words<'a>) -> Result<Command<'a>, LineError> {
    let uid = uid(words)?;
    let unit = number(words)?;
    let count = block_count(words.needed()?)?;
    let (marks, span) = marks_and_span(words)?;
    let tag = NewTag {
        uid,
        count,
        marks,
        span,
    };
    Ok(Command::Tag { unit, tag })
}

// How many blocks a tag is to have.
fn block_count(word: &[u8]) -> Result<u32, LineError>
    ensures { IfOk result (λ n. (n ≡ spelled word.now) × (n ≤ 65536)) }
{
    match words::number(word)? {
        count @ 0..=MOST_BLOCKS => Ok(count as u32),
        _ => Err(LineError::NumberTooLarge),
    }
}

// The marks that the rest of the line gives, in any order, and the span behind them.
fn marks_and_span(words: &mut Words) -> Result<(Marks, Span), LineError> {
    let mut marks = Marks {
        wide: false,
        multi: false,
        lockable: false,
        special: false,
    };
    // There are four marks, each at most once; a word behind four is one too many.
    for _ in 0..4 {
        match words.peek() {
            None | Some(b"span") => break,
            Some(word) => set_mark(&mut marks, word)?,
        }
        let _ = words.next_word();
    }
    if let Some(b"span") = words.peek() {
        let _ = words.next_word();
        return Ok((marks, span(words)?));
    }
    Ok((marks, Span::Endless))
}

fn set_mark(marks: &mut Marks, word: &[u8]) -> Result<(), LineError> {
    let mark = match word {
        b"wide" => &mut marks.wide,
        b"multi" => &mut marks.multi,
        b"lockable" => &mut marks.lockable,
        b"special" => &mut marks.special,
        _ => return Err(LineError::BadMark),
    };
    if mem::replace(mark, true) {
        return Err(LineError::RepeatedMark);
    }
    Ok(())
}

// The format that the next word, a TNF, names.
fn format(words: &mut Words) -> Result<Format, LineError> {
    match number(words)? {
        number @ 0..=7 => Ok(Format::from_flags(number as u8)),
        _ => Err(LineError::BadFormat),
    }
}

// The UID of the next word.
fn uid(words: &mut Words) -> Result<Uid, LineError> {
    uid::read(words.needed()?)
}

// The span of the next word.
fn span(words: &mut Words) -> Result<Span, LineError> {
    span::read(words.needed()?)
}

// The number of the next word.
fn number(words: &mut Words) -> Result<usize, LineError> {
    words::number(words.needed()?)
}

// The bytes of the next word.
fn bytes(heap: Global, words: &mut Words) -> Result<Vec<u8>, LineError> {
    words::hex(heap, words.needed()?)
}

// The room that is given, or else enough for the longest message.
fn room(words: &mut Words) -> Result<usize, LineError> {
    words
        .next_word()
        .map_or(Ok(composer::LONGEST), words::number)
}
