// A tag that is to be added, but for its block length.
use field::Span;
use tag::{Marks, Uid};

#[derive(Clone, Copy)]
pub struct NewTag {
    pub uid: Uid,
    // how many blocks it has
    pub count: u32,
    pub marks: Marks,
    pub span: Span,
}
