// The walk over a tag's TLVs, to its message.
ghost use Rattle.std.specs.Prelude.{◌≡◌, ◌+◌, ◌*◌, ◌≤◌, IfOk};
ghost use Rattle.memory.specs.BlockLength.{bytes_of};
ghost use Rattle.shown.specs.Walk.{walk};
ghost use Rattle.t5t.specs.Asking.{Asked};
ghost use Rattle.t5t.specs.Calls.{air_in, SameAir};
ghost use Rattle.t5t.specs.Takes.{Takes};
ghost use Rattle.refusal.specs.declared.step.Step.TheVariants as Step;

use crate::call::Call;
use crate::kind::Kind;
use crate::stop::Stop;
use crate::tlvs::Tlvs;
use field::Field;
use refusal::{Cause, Step};
use shown::{Container, Place};

impl<F: Field> Tlvs<'_, '_, F> {
    // From TLV to TLV, to the first message.
    fn walk(&mut self) -> Result<Place, Stop>
        requires { self.old.at ≡ self.old.container.begin }
        ensures takes { Takes (walk self.old.container) self.old self.new result }
        ensures within { IfOk result (λ p. (p.container ≡ self.old.container) × (p.container.begin ≤ p.at) × (p.at + 2 ≤ p.container.end)) }
    {
        while self.at < self.container.end {
            let at = self.at;
            match Kind::from(self.next_byte()?) {
                Kind::Terminator => break,
                Kind::Message => {
                    let _ = self.length_field()?;
                    let container = self.container;
                    return Ok(Place { container, at });
                }
                Kind::Other => {
                    let value = self.length_field()?;
                    self.at = value.at + value.long;
                }
            }
        }
        Err(self.call.link.stop(Step::Walk, Cause::NoMessage))
    }
}

impl<F: Field> Call<'_, F> {
    // Walks over the TLVs of a container.
    pub(crate) fn walk(&mut self, container: Container) -> Result<Place, Stop>
        requires known { container.end ≤ 65536 * bytes_of self.old.link.unit }
        requires begins { container.begin ≤ container.end }
        requires few { self.old.link.exchanges ≤ container.begin }
        ensures asked { Asked Step.Walk (walk container) self.old.link self.new.link (air_in self.old) (air_in self.new) result }
        ensures within { IfOk result (λ p. (p.container ≡ container) × (container.begin ≤ p.at) × (p.at + 2 ≤ container.end)) }
        ensures air { SameAir self.old self.new }
    {
        let mut tlvs = Tlvs {
            call: self,
            container,
            at: container.begin,
        };
        tlvs.walk()
    }
}
