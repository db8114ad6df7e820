// A span as it is typed: `endless`, or a number of half exchanges.
ghost use Rattle.std.specs.Prelude.{IfOk};
ghost use Rattle.gate.specs.Spans.{Spells};

use crate::line_error::LineError;
use crate::words;
use field::Span;

// How a line spells a span is this program's, and a `TryFrom<&[u8]>` would have to stand beside the library's type.
pub fn read(word: &[u8]) -> Result<Span, LineError>
    ensures { IfOk result (λ s. Spells word.now s) }
{
    if word == b"endless".as_slice() {
        return Ok(Span::Endless);
    }
    let number = words::number(word).map_err(|_| LineError::BadSpan)?;
    Ok(Span::Left(number as u64))
}
