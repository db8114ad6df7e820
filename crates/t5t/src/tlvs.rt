// The TLVs of a tag, read byte by byte.
ghost use Rattle.std.specs.Prelude.{◌+◌, ◌*◌, ◌≤◌};
ghost use Rattle.memory.specs.BlockLength.{bytes_of};

use crate::call::Call;
use field::Field;
use shown::Container;

// The next byte stands at an address that does not pass the end, and no more frames were sent than bytes stand before it.
#[derive(Drop)]
pub(crate) struct Tlvs<'c, 'a, F: Field> {
    pub(crate) call: &'c mut Call<'a, F>,
    pub(crate) container: Container,
    pub(crate) at: u32,
    ghost within: { at ≤ container.end },
    ghost known: { container.end ≤ 65536 * bytes_of call.now.link.unit },
    ghost few: { call.now.link.exchanges ≤ at },
}
