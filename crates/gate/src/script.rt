// A script: lines on the standard input, each answered before the next is read.
use crate::line_error::LineError;
use crate::rehearsal::Rehearsal;
use anyhow::anyhow;
use std::alloc::AllocError;
use std::io;
use std::io::{BufRead, BufReader, ErrorKind};

// Plays the script to its end, and fails there if a line was not understood.
pub fn play(rt: &HostRuntime) -> anyhow::Result<()> {
    let heap = rt.alloc();
    let mut rehearsal = Rehearsal::new(heap);
    let mut is_understood = true;
    let lines = BufReader::new(heap, rt.stdin())?.split(heap, b'\n');
    for (number, line) in (1u64..).zip(lines) {
        let line = line.map_err(|error| unread(rt, number, error))?;
        // A script goes on after a line that is not understood.
        is_understood &= follow(rt, &mut rehearsal, number, line.as_slice())?;
    }
    if is_understood {
        Ok(())
    } else {
        Err(anyhow!("a line was not understood"))
    }
}

// Prints what a line's command did, or why the line is not understood; answers whether it is.
fn follow(
    rt: &HostRuntime,
    rehearsal: &mut Rehearsal,
    number: u64,
    line: &[u8],
) -> io::Result<bool> {
    let line = without_return(line);
    if is_passed_over(line) {
        return Ok(true);
    }
    match rehearsal.perform(line) {
        Ok(answer) => {
            rt.println(answer)?;
            Ok(true)
        }
        Err(error) => {
            println!(rt; "line {number}: {error}")?;
            Ok(false)
        }
    }
}

// The line without the carriage return that some systems end a line with.
fn without_return(line: &[u8]) -> &[u8] {
    line.strip_suffix(b"\r").unwrap_or(line)
}

// Whether the line is empty or a remark.
fn is_passed_over(line: &[u8]) -> bool {
    line.is_empty() || line.starts_with(b"#")
}

// A line that cannot be read ends the script, since its rest could not be told from a line.
fn unread(rt: &HostRuntime, number: u64, error: io::Error) -> anyhow::Error {
    if error.kind() == ErrorKind::OutOfMemory {
        let why = LineError::from(AllocError);
        let _ = println!(rt; "line {number}: {why}");
    }
    error.into()
}
