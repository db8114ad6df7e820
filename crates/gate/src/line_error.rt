// Why a line of the script is not understood, or what it asks for that is not there.
ghost use Rattle.std.specs.Prelude.{◌≡◌};
ghost use Rattle.gate.specs.declared.line_error.LineError.TheVariants.{NoBlock};

use memory::MemoryRefusal;
use std::alloc::AllocError;
use thiserror::Error;

#[derive(Clone, Copy, PartialEq, Eq, Debug, Error)]
pub enum LineError {
    #[error("there is no such command")]
    UnknownCommand,
    #[error("a word is missing")]
    MissingWord,
    #[error("there is a word too many")]
    ExtraWord,
    #[error("a walk number has 1 to 4 decimal digits")]
    BadWalk,
    #[error("the house's text is missing")]
    MissingText,
    #[error("a type name format is 0 to 7")]
    BadFormat,
    #[error("a number has decimal digits and nothing else")]
    BadNumber,
    #[error("the number is too large")]
    NumberTooLarge,
    #[error("bytes are pairs of hex digits, or -")]
    BadHex,
    #[error("a UID has 16 hex digits")]
    BadUid,
    #[error("a mark is wide, multi, lockable or special")]
    BadMark,
    #[error("a mark is given twice")]
    RepeatedMark,
    #[error("a span is endless or a number up to 18446744073709551615")]
    BadSpan,
    #[error("there is no tag with that UID")]
    NoTag,
    #[error("the tag has no such block")]
    NoBlock,
    #[error("the bytes lie outside the tag's memory")]
    OutsideMemory,
    #[error("there is no such session")]
    NoSession,
    #[error("no memory")]
    NoMemory(#[from(alloc)] AllocError),
}

// A memory that is looked at refuses only a block that it does not have.
impl From<MemoryRefusal> for LineError {
    ghost from_gives = { λ _ error. error ≡ NoBlock };

    fn from(_e: MemoryRefusal) -> LineError {
        LineError::NoBlock
    }
}
