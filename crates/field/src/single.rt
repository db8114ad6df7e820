// A single tag as a field: it stays for good.
ghost use Rattle.tag.specs.Means.{tag_of};
ghost use Rattle.field.specs.Placed.{for_good};

use crate::field::Field;
use crate::heard::Heard;
use memory::Memory;
use tag::{Tag, TagRefusal};

impl<M: Memory> Field for Tag<M> {
    ghost tags = { λ t. for_good (tag_of M.Memory.model t) };

    ghost sound = { λ t. (M.Memory.sound t.memory, tt) };

    #[tactic(auto, unfolding(crate::specs::Exchange::hears, crate::specs::Exchange::says, crate::specs::Exchange::heard_from))]
    fn exchange(&mut self, frame: &[u8], space: &mut [u8]) -> Result<Heard, TagRefusal> {
        Ok(self.step(frame, space)?.into())
    }
}
