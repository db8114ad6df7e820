// A field of any number of tags, each with its own span, for programs that put fields together while they run.
ghost use Rattle.std.specs.Prelude.{[], ◌∷◌, map};
ghost use Rattle.field.specs.Exchange.{Exchanged};
ghost use Rattle.rack.specs.Rack.{placed_of};
ghost use Rattle.rack.specs.Sound.{sound-all};

use field::{Field, Heard, Span};
use memory::Memory;
use tag::{Tag, TagRefusal, check_space};

// A tag with its span.
#[derive(Drop)]
pub struct Slot<M: Memory> {
    pub tag: Tag<M>,
    pub span: Span,
}

#[derive(Drop)]
pub struct Rack<M: Memory> {
    pub slots: Vec<Slot<M>>,
}

impl<M: Memory> Field for Slot<M> {
    ghost tags = { λ s. placed_of M.Memory.model s ∷ [] };

    ghost sound = { λ s. (M.Memory.sound s.tag.memory, tt) };

    // A tag that stays too short for an answer still carries the frame out.
    #[tactic(auto, unfolding(field::specs::Exchange::hears, field::specs::Exchange::says, field::specs::Exchange::heard_from))]
    fn exchange(&mut self, frame: &[u8], space: &mut [u8]) -> Result<Heard, TagRefusal> {
        check_space(space)?;
        let span = self.span;
        self.span = span.fallen();
        if span.answers() {
            return self.tag.exchange(frame, space);
        }
        if span.reaches() {
            self.tag.exchange_unheard(frame);
        }
        Ok(Heard::Nothing)
    }
}

impl<M: Memory> Rack<M> {
    // What is heard of its tags, one after the other. A function of its own, since its proof has answers: a wrong edit of the
    // public one has to be refused there and not at those, which is a rule of the project.
    fn exchange_all(&mut self, frame: &[u8], space: &mut [u8]) -> Result<Heard, TagRefusal>
        ensures { Exchanged (map (placed_of M.model) self.old.slots.items) (map (placed_of M.model) self.new.slots.items) frame.now space.old space.new result }
    {
        check_space(space)?;
        let mut heard = Heard::Nothing;
        for slot in self.slots.iter_mut() {
            heard = heard.and(slot.exchange(frame, space)?);
        }
        Ok(heard)
    }
}

impl<M: Memory> Field for Rack<M> {
    ghost tags = { λ r. map (placed_of M.Memory.model) r.slots.items };

    ghost sound = { λ r. sound-all (placed_of M.Memory.model) (λ s. M.Memory.sound s.tag.memory) r.slots.items };

    fn exchange(&mut self, frame: &[u8], space: &mut [u8]) -> Result<Heard, TagRefusal> {
        self.exchange_all(frame, space)
    }
}
