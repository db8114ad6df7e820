// What a container's header allows.
ghost use Rattle.std.specs.Prelude.{◌≡◌};
ghost use Rattle.memory.specs.BlockLength.{bytes_of};
ghost use Rattle.shown.specs.Container.{is_ndef, is_readable, checked, limit, bounded};

use crate::container::Container;
use crate::flaw::Flaw;
use crate::header::Header;
use memory::BlockLength;

// The version, and 1.0 there.
const VERSION: u8 = 0xF0;

const VERSION_1_0: u8 = 0x40;
// Read access, of which 00b is free.
const READ_ACCESS: u8 = 0x0C;

impl Header {
    // Whether a tag with such a header holds NDEF data.
    fn is_ndef(self) -> bool
        ensures { result ≡ is_ndef self }
    {
        (self.magic == 0xE1 || self.magic == 0xE2) && self.access & VERSION == VERSION_1_0
    }

    // First what it is, then whether it may be read.
    pub fn checked(self) -> Result<Header, Flaw>
        ensures { result ≡ checked self }
    {
        if !self.is_ndef() {
            return Err(Flaw::NotNdef);
        }
        if self.access & READ_ACCESS != 0 {
            return Err(Flaw::NotReadable);
        }
        Ok(self)
    }

    // How far block numbers reach.
    pub fn limit(self, unit: BlockLength) -> u32
        ensures { result ≡ limit self (bytes_of unit) }
    {
        let unit = unit.bytes() as u32;
        if self.magic == 0xE1 {
            256 * unit
        } else {
            65_536 * unit
        }
    }

    // The container of so many times eight bytes from `begin` on, which is 4 or 8. A flag beside MLEN and no type of two forms:
    // its short form would have one byte of MLEN, which asks more of callers than this.
    pub fn bounded(self, unit: BlockLength, long: bool, mlen: u16) -> Result<Container, Flaw>
        ensures { result ≡ bounded self (bytes_of unit) long mlen }
    {
        let begin = if long { 8 } else { 4 };
        let end = begin + 8 * mlen as u32;
        if end > self.limit(unit) {
            return Err(Flaw::TooLong);
        }
        Ok(Container {
            header: self,
            begin,
            end,
        })
    }
}
