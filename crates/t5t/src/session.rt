// Sessions: what a gate knows of a tag, and what it may do with it.
ghost use Rattle.std.specs.Prelude.{◌+◌, ◌^◌, ◌<◌, ◌≤◌};
ghost use Rattle.memory.specs.BlockLength.{bytes_of};
ghost use Rattle.shown.specs.Container.{limit};

use memory::BlockLength;
use shown::Place;
use std::marker::PhantomData;
use tag::Uid;

// A tag of which only the UID is known. It can be detected, and nothing else.
#[derive(Drop)]
pub struct Sighted {
    pub(crate) uid: Uid,
}

// The tag was detected, and not closed since.
#[derive(Clone, Copy, PartialEq, Eq, Debug)]
pub struct Open;

// The tag was closed.
#[derive(Clone, Copy, PartialEq, Eq, Debug)]
pub struct Shut;

// A tag whose message was found, in a state. It reads. The message TLV lies between the beginning of the TLVs and their
// end, which is within its limit.
#[derive(Drop)]
pub struct Session<S> {
    pub(crate) uid: Uid,
    pub(crate) unit: BlockLength,
    // where the message TLV stands
    pub(crate) place: Place,
    pub(crate) state: PhantomData<S>,
    // a `u64` is that; it is said for proofs that have the session behind a `&`
    ghost low: { uid.0 < 2 ^ 64 },
    ghost begins: { place.container.begin ≤ place.at },
    ghost holds: { place.at + 2 ≤ place.container.end },
    ghost bounded: { place.container.end ≤ limit place.container.header (bytes_of unit) },
}

pub type Detected = Session<Open>;

pub type Closed = Session<Shut>;
