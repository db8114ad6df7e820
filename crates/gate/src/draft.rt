// The records that are to be composed: one store of bytes, and where each record's parts lie in it.
ghost use Rattle.std.specs.Prelude.{◌≡◌, ◌+◌, IfOk, vec_len, MatchResult};
ghost use Rattle.gate.specs.Drafts.{Begins, Empty, Same};

use crate::fields::Fields;
use crate::line_error::LineError;
use composer::{Description, Extent};
use ndef::RecordRefusal;
use std::alloc::{AllocError, Global};

// The composer's `compose` is public and takes one store of bytes and extents into it: that signature stands.
#[derive(Drop)]
pub struct Draft {
    store: Vec<u8>,
    descriptions: Vec<Description>,
}

// Puts the bytes at the store's end, and answers where they lie.
fn keep(store: &mut Vec<u8>, bytes: &[u8]) -> Result<Extent, AllocError>
    ensures begins { Begins store.old store.new }
    ensures lies { IfOk result (λ e. (e.place ≡ vec_len store.old) × (e.place + e.len ≡ vec_len store.new)) }
{
    let place = store.len();
    store.extend_from_slice(bytes)?;
    Ok(Extent {
        place,
        len: bytes.len(),
    })
}

impl Draft {
    pub fn new(heap: Global) -> Draft
        ensures { Empty result }
    {
        Draft {
            store: Vec::new(heap),
            descriptions: Vec::new(heap),
        }
    }

    // Puts a record's parts into the store, and describes it; where memory fails, some parts may be there already.
    fn put(&mut self, fields: Fields<&[u8]>) -> Result<(), LineError>
        ensures store { Begins self.old.store self.new.store }
        ensures count { MatchResult result (λ _. vec_len self.new.descriptions ≡ vec_len self.old.descriptions + 1) (λ _. self.new.descriptions.items ≡ self.old.descriptions.items) }
    {
        let description = Description {
            format: fields.format,
            kind: keep(&mut self.store, fields.kind)?,
            id: keep(&mut self.store, fields.id)?,
            payload: keep(&mut self.store, fields.payload)?,
        };
        self.descriptions.push(description)?;
        Ok(())
    }

    // Adds a record, or nothing at all where memory fails.
    pub fn add(&mut self, fields: Fields<&[u8]>) -> Result<(), LineError>
        ensures { MatchResult result (λ _. vec_len self.new.descriptions ≡ vec_len self.old.descriptions + 1) (λ _. Same self.old self.new) }
    {
        let before = self.store.len();
        if let Err(error) = self.put(fields) {
            self.store.truncate(before);
            return Err(error);
        }
        Ok(())
    }

    // Composes the records into the front of the space, and answers the message's length.
    pub fn compose(&self, space: &mut [u8]) -> Result<usize, RecordRefusal> {
        composer::compose(self.descriptions.as_slice(), self.store.as_slice(), space)
    }

    // Lets the records go.
    pub fn clear(&mut self)
        ensures { Empty self.new }
    {
        self.descriptions.clear();
        self.store.clear();
    }
}
