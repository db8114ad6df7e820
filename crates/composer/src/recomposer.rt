// Reading a message and composing its records again.
ghost use Rattle.composer.specs.Composing.{Recomposes};
ghost use Rattle.composer.specs.Records.{bad_header};
ghost use Rattle.ndef.specs.Reading.{contents, fault as fault_of, left as left_of};

use crate::fields::Fields;
use crate::records::{Records, compose_all};
use header::RecordRefusal;
use ndef::Reader;

impl<'a> Records<'a> for Reader<'a> {
    ghost left = { λ r. contents (left_of r.message.now r.place) };

    ghost fault = { λ r. bad_header (fault_of (left_of r.message.now r.place)) };

    fn next_fields(&mut self) -> Result<Option<Fields<'a>>, RecordRefusal> {
        let next = self.next_record()?;
        Ok(next.map(|record| Fields::of_record(&record)))
    }

    fn is_over(&self) -> bool {
        Reader::is_over(self)
    }
}

// Composes the records of a message again into the front of the space, with shortest headers, and answers the length.
pub fn recompose(message: &[u8], space: &mut [u8]) -> Result<usize, RecordRefusal>
    ensures { Recomposes message.now space.old space.new result }
{
    compose_all(Reader::new(message), space)
}
