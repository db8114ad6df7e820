// The composer: descriptions into a message.
ghost use Rattle.std.specs.Prelude.{◌≤◌, drop, length, map};
ghost use Rattle.composer.specs.Composing.{Composes, described, first_bad};
ghost use Rattle.composer.specs.Records.{bad_description};

use crate::description::Description;
use crate::fields::Fields;
use crate::records::{Records, compose_all};
use header::RecordRefusal;

// The descriptions from `index` on, of one store. A slice that shrinks would do but for the refusal, which names the index.
#[derive(Clone, Copy)]
struct Described<'a> {
    descriptions: &'a [Description],
    store: &'a [u8],
    index: usize,
    ghost within: { index ≤ length descriptions.now },
}

impl<'a> Records<'a> for Described<'a> {
    ghost left = { λ d. map (described d.store.now) (drop d.index d.descriptions.now) };

    ghost fault = { λ d. bad_description (first_bad d.store.now d.index (drop d.index d.descriptions.now)) };

    // Inside the loops that call it; called from there, it takes composing half as long again.
    #[inline(always)]
    fn next_fields(&mut self) -> Result<Option<Fields<'a>>, RecordRefusal> {
        let Some(description) = self.descriptions.get(self.index) else {
            return Ok(None);
        };
        let fields = description
            .fields(self.store)
            .ok_or(RecordRefusal::BadDescription { index: self.index })?;
        self.index += 1;
        Ok(Some(fields))
    }

    #[tactic(auto, using(crate::proofs::Composes::none_left))]
    fn is_over(&self) -> bool {
        self.index == self.descriptions.len()
    }
}

// Composes the message of the described records into the front of the space, and answers its length.
pub fn compose(
    descriptions: &[Description],
    store: &[u8],
    space: &mut [u8],
) -> Result<usize, RecordRefusal>
    ensures { Composes descriptions.now store.now space.old space.new result }
{
    let described = Described {
        descriptions,
        store,
        index: 0,
    };
    compose_all(described, space)
}
