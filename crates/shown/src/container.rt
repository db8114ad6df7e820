// Where the TLVs of a tag are, and its message among them. Plain values without facts of their own: the definition of what a
// tag shows makes them of any bytes, and who makes them well says so.
use crate::header::Header;

#[derive(Clone, Copy, PartialEq, Eq, Debug)]
pub struct Container {
    pub header: Header,
    // where the TLVs begin
    pub begin: u32,
    // and where they end
    pub end: u32,
}

// A message TLV.
#[derive(Clone, Copy, PartialEq, Eq, Debug)]
pub struct Place {
    pub container: Container,
    pub at: u32,
}
