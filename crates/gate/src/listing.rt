// The records of a message as lines of text.
use crate::hex::Hex;
use crate::line_error::LineError;
use crate::refused::Refusal;
use ndef::{Reader, Record};
use std::alloc::{AllocError, Global};
use std::fmt;
use std::fmt::Write;

#[derive(Drop)]
pub struct Listing {
    // a line for each record that is read
    lines: String,
    // how many they are, or why the reading stopped
    end: Result<usize, Refusal>,
}

impl Listing {
    pub fn of(heap: Global, message: &[u8]) -> Result<Listing, LineError> {
        let mut lines = String::new(heap);
        let mut count: usize = 0;
        let mut reader = Reader::new(message);
        // There are two kinds of error: a refusal ends the listing, and want of memory ends the call.
        let end = loop {
            match reader.next_record() {
                Ok(Some(record)) => {
                    write_record(&mut lines, &record)?;
                    count = count.saturating_add(1);
                }
                Ok(None) => break Ok(count),
                Err(refusal) => break Err(Refusal::from(refusal)),
            }
        };
        Ok(Listing { lines, end })
    }
}

// Puts the record's line at the end of the others.
fn write_record(lines: &mut String, record: &Record) -> Result<(), AllocError> {
    writeln!(
        lines,
        "record {} {} {} {} {}",
        record.place,
        record.format.number(),
        Hex(record.kind.bytes),
        Hex(record.id.bytes),
        Hex(record.payload.bytes),
    )
}

impl fmt::Display for Listing {
    fn fmt<W: fmt::Write>(&self, f: &mut fmt::Formatter<W>) -> fmt::Result {
        f.write_str(self.lines.as_str())?;
        match self.end {
            Ok(count) => write!(f, "records {count}"),
            Err(refusal) => write!(f, "{refusal}"),
        }
    }
}
