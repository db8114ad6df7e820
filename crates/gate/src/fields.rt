// The fields of a record that is to be composed; its type, ID and payload are bytes of some kind.
ghost use Rattle.std.specs.Prelude.{◌≡◌};

use ndef::Format;

#[derive(Drop)]
pub struct Fields<B> {
    pub format: Format,
    pub kind: B,
    pub id: B,
    pub payload: B,
}

impl Fields<Vec<u8>> {
    pub fn as_slices(&self) -> Fields<&[u8]>
        ensures format { result.format ≡ self.now.format }
        ensures kind { result.kind.now ≡ self.now.kind.items }
        ensures id { result.id.now ≡ self.now.id.items }
        ensures payload { result.payload.now ≡ self.now.payload.items }
    {
        Fields {
            format: self.format,
            kind: self.kind.as_slice(),
            id: self.id.as_slice(),
            payload: self.payload.as_slice(),
        }
    }
}
