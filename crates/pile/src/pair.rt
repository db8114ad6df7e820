// Two fields in one gate: the left one's tags, then the right one's.
ghost use Rattle.std.specs.Prelude.{◌++◌};
ghost use Rattle.field.proofs.Exchanges.{sound_both};

use field::{Field, Heard};
use tag::TagRefusal;

#[derive(Drop)]
pub struct Pair<L: Field, R: Field> {
    pub left: L,
    pub right: R,
}

impl<L: Field, R: Field> Field for Pair<L, R> {
    ghost tags = { λ p. L.Field.tags p.left ++ R.Field.tags p.right };

    ghost sound = { λ f. sound_both _ _ (L.Field.sound f.left) (R.Field.sound f.right) };

    // What is heard of the two, one after the other.
    #[tactic(auto, using(field::proofs::Exchanges::appended))]
    fn exchange(&mut self, frame: &[u8], space: &mut [u8]) -> Result<Heard, TagRefusal> {
        let first = self.left.exchange(frame, space)?;
        let second = self.right.exchange(frame, space)?;
        Ok(first.and(second))
    }
}
