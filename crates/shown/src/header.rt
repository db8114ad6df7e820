// The four bytes that every capability container has: plain bytes and no enums, since a tag shows what it shows whatever
// stands there.
#[derive(Clone, Copy, PartialEq, Eq, Debug)]
pub struct Header {
    // E1h, for one-byte block numbers, or E2h
    pub magic: u8,
    // the version in b7 to b4, read access in b3b2, write access in b1b0
    pub access: u8,
    // MLEN, or 00h where the container has eight bytes
    pub mlen: u8,
    pub features: u8,
}
