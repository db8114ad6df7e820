// A session with a tag that was detected.
ghost use Rattle.t5t.specs.Air.{air_of};
ghost use Rattle.gate.specs.Sessions.{ReadsWith};

use field::Field;
use t5t::{Closed, Detected, NotRead, Received};

// The list of sessions holds them in either state, so that a reading is one generic call. Nothing makes a closed session
// yet.
#[derive(Drop)]
pub enum Session {
    Detected(Detected),
    Closed(Closed),
}

impl Session {
    // Reads into the front of the message space.
    pub fn read<F: Field>(
        &self,
        field: &mut F,
        space: &mut [u8],
        message: &mut [u8],
    ) -> Result<Received, NotRead>
        ensures { ReadsWith self.now (air_of F.tags field.old space.old) (air_of F.tags field.new space.new) message.old message.new result }
    {
        match self {
            Session::Detected(detected) => detected.read(field, space, message),
            Session::Closed(closed) => closed.read(field, space, message),
        }
    }
}
