// The L-field of a TLV.
ghost use Rattle.std.specs.Prelude.{◌≡◌, ◌+◌, ◌-◌, ◌≤◌, IfOk};
ghost use Rattle.shown.specs.Walk.{whole, before, two_bytes, long_length, length_field};
ghost use Rattle.t5t.specs.Asking.{stopped};
ghost use Rattle.t5t.specs.Takes.{Takes};
ghost use Rattle.refusal.specs.declared.step.Step.TheVariants as Step;

use crate::stop::Stop;
use crate::tlvs::Tlvs;
use field::Field;
use frames::word;
use refusal::{Cause, Step};
use shown::Value;

// Behind it the length has two bytes.
const LONG: u8 = 0xFF;

const NO_LENGTH: u16 = 0xFFFF;

impl<F: Field> Tlvs<'_, '_, F> {
    // The next byte, unless the TLVs end before it.
    pub(crate) fn next_byte(&mut self) -> Result<u8, Stop>
        ensures takes { Takes (before self.old.container.end self.old.at) self.old self.new result }
        ensures passed { IfOk result (λ _. self.new.at ≡ self.old.at + 1) }
    {
        let at = self.at;
        if at >= self.container.end {
            return Err(self.call.link.stop(Step::Walk, Cause::Malformed));
        }
        self.at += 1;
        self.call.byte(Step::Walk, at)
    }

    // The next two bytes, the most significant first.
    fn two_bytes(&mut self) -> Result<u16, Stop>
        ensures takes { Takes (two_bytes self.old.container.end self.old.at) self.old self.new result }
        ensures passed { IfOk result (λ _. self.new.at ≡ self.old.at + 2) }
    {
        let high = self.next_byte()?;
        let low = self.next_byte()?;
        Ok(word(high, low))
    }

    // A value that is next, and does not pass the end.
    fn whole(&self, long: u16) -> Result<Value, Stop>
        ensures whole { result ≡ stopped Step.Walk self.now.call.now.link.kept (whole self.now.container.end self.now.at long) }
        ensures within { IfOk result (λ v. (v.at + v.long ≤ self.now.container.end) × (v.at ≡ self.now.at)) }
    {
        let long = u32::from(long);
        if long > self.container.end - self.at {
            return Err(self.call.link.stop(Step::Walk, Cause::Malformed));
        }
        Ok(Value { at: self.at, long })
    }

    // The length behind FFh.
    fn long_length(&mut self) -> Result<Value, Stop>
        ensures takes { Takes (long_length self.old.container.end self.old.at) self.old self.new result }
        ensures within { IfOk result (λ v. (v.at + v.long ≤ self.new.container.end) × (v.at ≡ self.new.at)) }
    {
        let long = self.two_bytes()?;
        if long == NO_LENGTH {
            return Err(self.call.link.stop(Step::Walk, Cause::Malformed));
        }
        self.whole(long)
    }

    // The L-field of the TLV whose T was the last byte: where its value stands.
    pub(crate) fn length_field(&mut self) -> Result<Value, Stop>
        requires { 1 ≤ self.old.at }
        ensures takes { Takes (length_field self.old.container.end (self.old.at - 1)) self.old self.new result }
        ensures within { IfOk result (λ v. (v.at + v.long ≤ self.new.container.end) × (v.at ≡ self.new.at) × (self.old.at + 1 ≤ v.at)) }
    {
        let long = self.next_byte()?;
        if long == LONG {
            return self.long_length();
        }
        self.whole(u16::from(long))
    }
}
