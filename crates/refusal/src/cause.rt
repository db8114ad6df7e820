// Why a call is refused: one list, as refusals are told. Flaws and the refusals of answers are not inside but in it, so that
// whoever matches need not know where a cause comes from.
ghost use Rattle.std.specs.Prelude.{◌≡◌};
ghost use Rattle.refusal.specs.Cause.{number_of, cause_of, cause_of_answer};

use field::AnswerRefusal;
use shown::Flaw;

#[derive(Clone, Copy, PartialEq, Eq, Debug)]
pub enum Cause {
    // 1: the answer space is shorter than the longest answer.
    AnswerSpaceShort,
    // 2: the message space is shorter than the message, which has so many bytes.
    MessageSpaceShort { length: u32 },
    // 10: another magic number, or another version.
    NotNdef,
    // 11: the container does not allow it.
    NoAccess,
    // 12: the end is past what block numbers reach.
    TooLong,
    // 13: a TLV is malformed.
    Malformed,
    // 14: there is no message TLV.
    NoMessage,
    // 15: the message is empty.
    Empty,
    // 16: the tag answers with an error.
    TagError { code: u8 },
    // 20: nothing was heard.
    Lost,
    // 21: several tags were heard.
    Several,
    // 22: the answer is neither the data that was expected nor an error.
    NotUnderstood,
}

impl Cause {
    // The number under which it is listed. A method and no `From`, which would not say which number it is.
    pub fn number(self) -> u8
        ensures { result ≡ number_of self }
    {
        match self {
            Cause::AnswerSpaceShort => 1,
            Cause::MessageSpaceShort { .. } => 2,
            Cause::NotNdef => 10,
            Cause::NoAccess => 11,
            Cause::TooLong => 12,
            Cause::Malformed => 13,
            Cause::NoMessage => 14,
            Cause::Empty => 15,
            Cause::TagError { .. } => 16,
            Cause::Lost => 20,
            Cause::Several => 21,
            Cause::NotUnderstood => 22,
        }
    }
}

// Of a tag that shows nothing.
impl From<Flaw> for Cause {
    ghost from_gives = { λ flaw cause. cause ≡ cause_of flaw };

    fn from(flaw: Flaw) -> Cause {
        match flaw {
            Flaw::NotNdef => Cause::NotNdef,
            Flaw::NotReadable => Cause::NoAccess,
            Flaw::TooLong => Cause::TooLong,
            Flaw::Malformed => Cause::Malformed,
            Flaw::NoMessage => Cause::NoMessage,
        }
    }
}

// Of an answer without data.
impl From<AnswerRefusal> for Cause {
    ghost from_gives = { λ refusal cause. cause ≡ cause_of_answer refusal };

    fn from(refusal: AnswerRefusal) -> Cause {
        match refusal {
            AnswerRefusal::TagError { code } => Cause::TagError { code },
            AnswerRefusal::NotUnderstood => Cause::NotUnderstood,
        }
    }
}
