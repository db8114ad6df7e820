// The frames that a gate sends.
ghost use Rattle.std.specs.Prelude.{◌≡◌};
ghost use Rattle.procedure.specs.Frames.{read_frame};
ghost use Rattle.frames.specs.Frame.{bytes_of};

use tag::Uid;

// A frame, by how many bytes its block number has.
#[derive(Clone, Copy, PartialEq, Eq, Debug)]
pub enum Frame {
    OneByte([u8; 11]),
    TwoBytes([u8; 12]),
}

// Addressed, with the other bits as they must be.
const ADDRESSED: u8 = 0x22;

impl Frame {
    // Reads a block of the tag: up to 255 under 20h, later ones under 30h with the low byte first.
    pub fn read(uid: Uid, block: u16) -> Frame
        ensures { bytes_of result ≡ read_frame uid.0 block }
    {
        let [a, b, c, d, e, f, g, h] = uid.0.to_le_bytes();
        match u8::try_from(block) {
            Ok(number) => Frame::OneByte([ADDRESSED, 0x20, a, b, c, d, e, f, g, h, number]),
            Err(_) => {
                let [low, high] = block.to_le_bytes();
                Frame::TwoBytes([ADDRESSED, 0x30, a, b, c, d, e, f, g, h, low, high])
            }
        }
    }

    pub fn bytes(&self) -> &[u8]
        ensures { result.now ≡ bytes_of self.now }
    {
        match self {
            Frame::OneByte(bytes) => bytes,
            Frame::TwoBytes(bytes) => bytes,
        }
    }
}
