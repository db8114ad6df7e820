// A call on its way to a tag.
ghost use Rattle.std.specs.Prelude.{◌≡◌, ◌≤◌, length};
ghost use Rattle.tag.specs.Means.{longest};

use crate::link::Link;
use field::Field;

// The field, the answer space, which has room for every answer, and how far the call has come. Each part of a call says how
// many frames may have gone before it: the next one adds to them, so no bound on the count is a fact of the type; over TLVs
// one is. A function that makes a call of a field and a space was tried, and its proof didn't close: where it refuses, what
// it leaves of the two couldn't be said. So detection and reading each write it out.
#[derive(Drop)]
pub(crate) struct Call<'a, F: Field> {
    pub(crate) field: &'a mut F,
    pub(crate) space: &'a mut [u8],
    pub(crate) link: Link,
    ghost room: { longest ≤ length space.now },
}
