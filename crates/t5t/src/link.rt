// How far a call has come with its tag.
use crate::kept::Kept;
use memory::BlockLength;
use tag::Uid;

// Whom it speaks to, the block last read, and how many frames it has sent.
#[derive(Clone, Copy)]
pub(crate) struct Link {
    pub(crate) uid: Uid,
    pub(crate) unit: BlockLength,
    pub(crate) kept: Option<Kept>,
    pub(crate) exchanges: u64,
}
