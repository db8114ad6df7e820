// The body of a command on blocks: what stands behind flag, code and UID.
ghost use Rattle.std.specs.Prelude.{◌≡◌, ◌≤◌, ◌<◌, length, take, drop, MatchOption};
ghost use Rattle.request.specs.Frame.{little};
ghost use Rattle.tag.specs.Jobs.{Asks};
ghost use Rattle.tag.specs.Rules.{number_length, body_length};

use request::{Command, Work};

// What a command asks of the blocks.
#[derive(Clone, Copy)]
pub(crate) enum Job<'a> {
    ReadBlocks { first: u16, count: u32 },
    WriteBlock { block: u16, bytes: &'a [u8] },
    LockBlock { block: u16 },
}

// The number at the front of the bytes, least significant byte first, and what stands behind it.
fn split_number(command: Command, bytes: &[u8]) -> Option<(u16, &[u8])>
    ensures { MatchOption result (length bytes.now < number_length command) (λ p. (number_length command ≤ length bytes.now) × (p.0 ≡ little (take (number_length command) bytes.now)) × (p.1.now ≡ drop (number_length command) bytes.now)) }
{
    if command.wide {
        let (number, rest) = bytes.split_first_chunk::<2>()?;
        Some((u16::from_le_bytes(*number), rest))
    } else {
        let (&number, rest) = bytes.split_first()?;
        Some((number as u16, rest))
    }
}

impl<'a> Job<'a> {
    // What the command and its body ask, where the body is as long as that takes and a block has `unit` bytes.
    pub(crate) fn read(command: Command, body: &'a [u8], unit: usize) -> Option<Job<'a>>
        ensures { MatchOption result (length body.now ≡ body_length command unit → ⊥) (Asks command body.now unit) }
    {
        let (block, rest) = split_number(command, body)?;
        match command.work {
            Work::Read if rest.is_empty() => Some(Job::ReadBlocks {
                first: block,
                count: 1,
            }),
            Work::Write if rest.len() == unit => Some(Job::WriteBlock { block, bytes: rest }),
            Work::Lock if rest.is_empty() => Some(Job::LockBlock { block }),
            Work::ReadMany => match split_number(command, rest)? {
                // one less than how many blocks are asked for
                (more, []) => Some(Job::ReadBlocks {
                    first: block,
                    count: more as u32 + 1,
                }),
                _ => None,
            },
            Work::Read | Work::Write | Work::Lock => None,
        }
    }
}
