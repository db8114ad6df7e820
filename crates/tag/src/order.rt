// What a frame asks of a tag.
ghost use Rattle.std.specs.Prelude.{◌≡◌, true, false, if◌then◌else◌};
ghost use Rattle.tag.specs.Orders.{IsOrderOf, Orders, does, heeds_frame};
ghost use Rattle.tag.specs.Rules.{deaf, for_another, silence};
ghost use Rattle.tag.specs.Tag.{TagModel};

use request::{Command, Frame, Reach, Uid};

// A command on blocks, if the code is one, with its option flag and the bytes behind.
#[derive(Clone, Copy)]
pub(crate) struct BlockOrder<'a> {
    pub(crate) command: Option<Command>,
    pub(crate) optioned: bool,
    pub(crate) body: &'a [u8],
}

#[derive(Clone, Copy)]
pub(crate) enum Order<'a> {
    Nothing,
    // another tag is selected
    SelectAnother,
    Select,
    StayQuiet,
    ToEvery(BlockOrder<'a>),
    ToSelected(BlockOrder<'a>),
    ToThis(BlockOrder<'a>),
}

// The code of SELECT.
const SELECT: u8 = 0x25;
// The code of STAY QUIET.
const STAY_QUIET: u8 = 0x02;
// Flag, code and UID, and nothing behind.
const JUST_ADDRESSED: usize = 10;

// The command on blocks that the code may be.
fn block_order<'a>(frame: &Frame<'a>) -> BlockOrder<'a>
    ensures { IsOrderOf frame.now result }
{
    BlockOrder {
        command: Command::try_from(frame.code).ok(),
        optioned: frame.optioned,
        body: frame.body,
    }
}

// What a frame for another tag asks.
fn for_another<'a>(frame: &Frame<'a>) -> Order<'a>
    ensures { (t : TagModel) → for_another t frame.now.length frame.now.code ≡ does t result }
{
    if frame.length == JUST_ADDRESSED && frame.code == SELECT {
        Order::SelectAnother
    } else {
        Order::Nothing
    }
}

// What a frame for this tag asks.
fn for_this<'a>(frame: &Frame<'a>) -> Order<'a>
    ensures { (t : TagModel) → heeds_frame t true frame.now ≡ does t result }
{
    match frame.code {
        SELECT if frame.length == JUST_ADDRESSED => Order::Select,
        STAY_QUIET if frame.length == JUST_ADDRESSED => Order::StayQuiet,
        SELECT | STAY_QUIET => Order::Nothing,
        _ => Order::ToThis(block_order(frame)),
    }
}

// What a frame for every tag, or for the selected one, asks.
fn for_many<'a>(frame: &Frame<'a>, selective: bool) -> Order<'a>
    ensures { (t : TagModel) → (if deaf t.state selective then silence t else heeds_frame t false frame.now) ≡ does t result }
{
    match frame.code {
        SELECT | STAY_QUIET => Order::Nothing,
        _ if selective => Order::ToSelected(block_order(frame)),
        _ => Order::ToEvery(block_order(frame)),
    }
}

impl<'a> Order<'a> {
    // What the frame asks of the tag with that UID.
    pub(crate) fn read(bytes: &'a [u8], uid: Uid) -> Order<'a>
        ensures { Orders bytes.now uid.0 result }
    {
        let Some(frame) = Frame::read(bytes) else {
            return Order::Nothing;
        };
        match frame.reach {
            Reach::One(to) if to == uid => for_this(&frame),
            Reach::One(_) => for_another(&frame),
            Reach::TheSelected => for_many(&frame, true),
            Reach::Every => for_many(&frame, false),
        }
    }
}
