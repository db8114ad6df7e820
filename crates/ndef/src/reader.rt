// The record reader: it borrows a message and hands out its records one by one.
ghost use Rattle.std.specs.Prelude.{◌≡◌, ℕ, ◌+◌, ◌≤◌, false, length, IfOk, IfSome, MatchOption};
ghost use Rattle.ndef.specs.Reader.{Found, Hands, IsBrief, Next, stretch_of};
ghost use Rattle.ndef.specs.Reading.{good_at, over, stretch};

use crate::layout::Layout;
use crate::record::{Part, Record};
use header::RecordRefusal;

#[derive(Clone, Copy)]
pub struct Reader<'a> {
    message: &'a [u8],
    // the next header's place, or the message's end
    place: usize,
    ghost within: { place ≤ length message.now },
}

impl<'a> Reader<'a> {
    // A reader that stands at the message's first header.
    pub fn new(message: &'a [u8]) -> Reader<'a>
        ensures message { result.message.now ≡ message.now }
        ensures place { result.place ≡ 0 }
    {
        Reader { message, place: 0 }
    }

    // Whether the message is over: its last record was handed out, so there was one, and nothing is left.
    pub fn is_over(&self) -> bool
        ensures { result ≡ over self.now.message.now self.now.place }
    {
        self.place > 0 && self.place == self.message.len()
    }

    // The `count` bytes of the message from `place` on.
    fn part(&self, place: usize, count: usize) -> Part<'a>
        requires { place + count ≤ length self.now.message.now }
        ensures { stretch_of result ≡ stretch self.now.message.now place count }
    {
        Part {
            place,
            bytes: &self.message[place..place + count],
        }
    }

    // The record whose header is next, if it is good.
    fn record(&self) -> Option<Record<'a>>
        ensures found { MatchOption result (good_at self.now.message.now self.now.place ≡ false) (Found self.now.message.now self.now.place) }
        ensures brief { IfSome result IsBrief }
    {
        let layout = Layout::read(&self.message[self.place..], self.place == 0)?;
        let kind = self.part(self.place + layout.fixed, layout.kind);
        let id = self.part(kind.place + layout.kind, layout.id);
        let payload = self.part(id.place + layout.id, layout.payload);
        Some(Record {
            place: self.place,
            format: layout.format,
            kind,
            id,
            payload,
        })
    }

    // What the reader hands out next.
    fn peek(&self) -> Result<Option<Record<'a>>, RecordRefusal>
        ensures next { Next self.now.message.now self.now.place result }
        ensures brief { IfOk result (λ next. IfSome next IsBrief) }
    {
        if self.is_over() {
            return Ok(None);
        }
        let Some(record) = self.record() else {
            return Err(RecordRefusal::BadHeader { place: self.place });
        };
        Ok(Some(record))
    }

    // The next record; none behind the last one; a refusal at a bad header, now and at each later call.
    pub fn next_record(&mut self) -> Result<Option<Record<'a>>, RecordRefusal>
        ensures message { self.new.message.now ≡ self.old.message.now }
        ensures hands { Hands self.old.message.now self.old.place self.new.place result }
        ensures brief { IfOk result (λ next. IfSome next IsBrief) }
    {
        let next = self.peek()?;
        if let Some(record) = next {
            self.place = record.payload.place + record.payload.bytes.len();
        }
        Ok(next)
    }
}
