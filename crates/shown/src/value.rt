// Where the value of a TLV stands.
#[derive(Clone, Copy, PartialEq, Eq, Debug)]
pub struct Value {
    pub at: u32,
    pub long: u32,
}
