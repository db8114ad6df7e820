// The block last read.
ghost use Rattle.std.specs.Prelude.{◌≡◌, ◌≤◌, length};

// Its bytes stand in front, and 00h behind them: a byte is taken at a place below the block length, so no length is kept beside.
#[derive(Clone, Copy)]
pub(crate) struct Kept {
    pub(crate) number: u16,
    pub(crate) bytes: [u8; 32],
}

impl Kept {
    ghost use Rattle.t5t.specs.Asking.{kept_of};

    pub(crate) fn new(number: u16, block: &[u8]) -> Kept
        requires { length block.now ≤ 32 }
        ensures { result ≡ kept_of number block.now }
    {
        let mut bytes = [0u8; 32];
        bytes[..block.len()].copy_from_slice(block);
        Kept { number, bytes }
    }
}
