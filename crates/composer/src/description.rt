// Descriptions: what a composed message is to say, by where it lies in one store.
ghost use Rattle.std.specs.Prelude.{◌≡◌, false, MatchOption};
ghost use Rattle.composer.specs.Composing.{inside, sound, tellable};
ghost use Rattle.composer.specs.Describing.{Names, Describes};

use crate::fields::Fields;
use header::Format;

// Where a part lies in the store. Two numbers and no slice: one that does not lie in it has to be told and refused.
#[derive(Clone, Copy, PartialEq, Eq, Debug)]
pub struct Extent {
    pub place: usize,
    pub len: usize,
}

// One record of the message to compose.
#[derive(Clone, Copy, PartialEq, Eq, Debug)]
pub struct Description {
    pub format: Format,
    // the record's type
    pub kind: Extent,
    pub id: Extent,
    pub payload: Extent,
}

impl Extent {
    // The bytes that it names, if it lies within the store.
    fn bytes<'a>(&self, store: &'a [u8]) -> Option<&'a [u8]>
        ensures { MatchOption result (inside store.now self.now ≡ false) (λ b. Names store.now self.now b.now) }
    {
        store.get(self.place..self.place.checked_add(self.len)?)
    }
}

impl Description {
    // Whether a header can tell of it.
    fn is_tellable(&self) -> bool
        ensures { result ≡ tellable self.now }
    {
        self.kind.len <= 255
            && self.id.len <= 255
            && self
                .format
                .allows(self.kind.len, self.id.len, self.payload.len)
    }

    // The fields that it describes, if a record may have them.
    pub(crate) fn fields<'a>(&self, store: &'a [u8]) -> Option<Fields<'a>>
        ensures { MatchOption result (sound store.now self.now ≡ false) (Describes store.now self.now) }
    {
        if !self.is_tellable() {
            return None;
        }
        Some(Fields {
            format: self.format,
            kind: self.kind.bytes(store)?,
            id: self.id.bytes(store)?,
            payload: self.payload.bytes(store)?,
        })
    }
}
