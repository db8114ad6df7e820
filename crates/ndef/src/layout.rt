// The lengths that a record's header gives.
ghost use Rattle.std.specs.Prelude.{◌≡◌, ℕ, ◌<◌, ◌≤◌, false, length, MatchOption};
ghost use Rattle.header.specs.Header.{fixed};
ghost use Rattle.ndef.specs.Reading.{flags_of, payload_length, id_length, good};

use header::{CHUNK, FIRST, Format, LAST, NAMED, SHORT, fixed_length, is_set};

#[derive(Clone, Copy)]
pub(crate) struct Layout {
    pub(crate) format: Format,
    pub(crate) fixed: usize,
    pub(crate) kind: usize,
    pub(crate) id: usize,
    pub(crate) payload: usize,
    ghost kind_is_brief: { kind ≤ 255 },
    ghost id_is_brief: { id ≤ 255 },
}

// The payload's length, if the bytes hold the header's fixed part up to it: one byte in a short record, else four.
fn payload_length(bytes: &[u8]) -> Option<usize>
    ensures { MatchOption result (length bytes.now < fixed (flags_of bytes.now)) (λ n. n ≡ payload_length bytes.now) }
{
    let &[flags, _, ref count @ ..] = bytes else {
        return None;
    };
    if is_set(flags, SHORT) {
        Some(usize::from(*count.first()?))
    } else {
        Some(u32::from_be_bytes(*count.first_chunk()?) as usize)
    }
}

// The ID's length, if the bytes hold the header's fixed part: its last byte, where it is there.
fn id_length(bytes: &[u8]) -> Option<usize>
    ensures { MatchOption result (length bytes.now < fixed (flags_of bytes.now)) (λ n. (n ≡ id_length bytes.now) × (n ≤ 255)) }
{
    let flags = *bytes.first()?;
    if is_set(flags, NAMED) {
        Some(usize::from(*bytes.get(fixed_length(flags) - 1)?))
    } else {
        Some(0)
    }
}

impl Layout {
    ghost use Rattle.ndef.specs.Reader.{Lays};

    // The layout of the record whose header begins `bytes`, if it is good; `first` says whether it is the message's first.
    pub(crate) fn read(bytes: &[u8], first: bool) -> Option<Layout>
        ensures { MatchOption result (good first bytes.now ≡ false) (λ l. Lays first bytes.now l) }
    {
        let &[flags, kind, ..] = bytes else {
            return None;
        };
        let fixed = fixed_length(flags);
        let kind = usize::from(kind);
        let id = id_length(bytes)?;
        let payload = payload_length(bytes)?;
        let format = Format::from_flags(flags);
        let size = fixed + kind + id + payload;
        if size <= bytes.len()
            && is_set(flags, FIRST) == first
            && is_set(flags, LAST) == (size == bytes.len())
            && !is_set(flags, CHUNK)
            && format.allows(kind, id, payload)
        {
            Some(Layout {
                format,
                fixed,
                kind,
                id,
                payload,
            })
        } else {
            None
        }
    }
}
