// A refusal as it is printed.
ghost use Rattle.std.specs.Prelude.{◌≡◌};
ghost use Rattle.gate.specs.declared.refused.Refusal.TheVariants.{OfRecords, OfMemory, OfTag, OfDetection, OfReading};

use memory::MemoryRefusal;
use ndef::RecordRefusal;
use std::fmt;
use t5t::{Cause, NotFound, NotRead};
use tag::TagRefusal;

#[derive(Clone, Copy)]
pub enum Refusal {
    // Each of the first three comes before anything is sent, so no step was begun and nothing exchanged.
    OfRecords(RecordRefusal),
    OfMemory(MemoryRefusal),
    OfTag(TagRefusal),
    OfDetection(t5t::Refusal),
    OfReading(NotRead),
}

impl From<RecordRefusal> for Refusal {
    ghost from_gives = { λ refusal result. result ≡ OfRecords refusal };

    fn from(refusal: RecordRefusal) -> Refusal {
        Refusal::OfRecords(refusal)
    }
}

impl From<MemoryRefusal> for Refusal {
    ghost from_gives = { λ refusal result. result ≡ OfMemory refusal };

    fn from(refusal: MemoryRefusal) -> Refusal {
        Refusal::OfMemory(refusal)
    }
}

impl From<TagRefusal> for Refusal {
    ghost from_gives = { λ refusal result. result ≡ OfTag refusal };

    fn from(refusal: TagRefusal) -> Refusal {
        Refusal::OfTag(refusal)
    }
}

impl From<NotFound> for Refusal {
    ghost from_gives = { λ not_found result. result ≡ OfDetection not_found.refusal };

    fn from(not_found: NotFound) -> Refusal {
        Refusal::OfDetection(not_found.refusal)
    }
}

impl From<NotRead> for Refusal {
    ghost from_gives = { λ not_read result. result ≡ OfReading not_read };

    fn from(not_read: NotRead) -> Refusal {
        Refusal::OfReading(not_read)
    }
}

// How a script tells a refusal is this program's, and a `Display` would have to stand beside the library's type.
fn write_call<W: fmt::Write>(refusal: t5t::Refusal, f: &mut fmt::Formatter<W>) -> fmt::Result {
    write!(
        f,
        "refused {} step {} block {} exchanges {}",
        refusal.cause.number(),
        refusal.step.number(),
        refusal.block,
        refusal.exchanges,
    )?;
    match refusal.cause {
        Cause::MessageSpaceShort { length } => write!(f, " length {length}"),
        Cause::TagError { code } => write!(f, " code {code:02X}"),
        _ => Ok(()),
    }
}

impl fmt::Display for Refusal {
    fn fmt<W: fmt::Write>(&self, f: &mut fmt::Formatter<W>) -> fmt::Result {
        match self {
            Refusal::OfRecords(refusal @ RecordRefusal::SpaceShort) => {
                let number = refusal.number();
                write!(f, "refused {number} step 0 block 0 exchanges 0")
            }
            Refusal::OfRecords(
                refusal @ (RecordRefusal::BadHeader { .. } | RecordRefusal::BadDescription { .. }),
            ) => {
                let number = refusal.number();
                let place = refusal.place();
                write!(f, "refused {number} step 0 place {place} exchanges 0")
            }
            Refusal::OfMemory(refusal) => {
                let number = refusal.number();
                let block = refusal.block();
                write!(f, "refused {number} step 0 block {block} exchanges 0")
            }
            Refusal::OfTag(refusal) => {
                let number = refusal.number();
                write!(f, "refused {number} step 0 block 0 exchanges 0")
            }
            Refusal::OfDetection(refusal) => write_call(*refusal, f),
            Refusal::OfReading(NotRead { refusal, got }) => {
                write_call(*refusal, f)?;
                write!(f, " got {got}")
            }
        }
    }
}
