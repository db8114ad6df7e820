// The reader on known messages: each record with the places of its parts, and each kind of refusal at its place.
use composer::recompose;
use ndef::{Reader, Record};
use std::process::Abort;
use std::test::Fail;

// A record as the reader is to hand it out.
#[derive(Clone, Copy)]
struct Row<'a> {
    place: usize,
    number: u8,
    kind: &'a [u8],
    id: &'a [u8],
    payload: &'a [u8],
}

fn next<'a>(reader: &mut Reader<'a>) -> Result<Record<'a>, Fail> {
    Ok(reader.next_record()?.ok_or("the message ended early")?)
}

fn same(rt: &impl Abort, record: &Record<'_>, row: &Row<'_>) {
    assert_eq!(rt; record.place, row.place);
    assert_eq!(rt; record.format.number(), row.number);
    assert!(rt; record.kind.bytes == row.kind);
    assert!(rt; record.id.bytes == row.id);
    assert!(rt; record.payload.bytes == row.payload);
}

// The message is read as these rows, to its end, and stays there.
fn reads(rt: &impl Abort, message: &[u8], rows: &[Row<'_>]) -> Result<(), Fail> {
    let mut reader = Reader::new(message);
    for row in rows {
        same(rt, &next(&mut reader)?, row);
    }
    assert_eq!(rt; reader.next_record()?, None);
    assert_eq!(rt; reader.next_record()?, None);
    Ok(())
}

// Composed again, the message is the same bytes.
fn comes_back(rt: &impl Abort, message: &[u8]) -> Result<(), Fail> {
    let mut space = [0xEEu8; 400];
    let n = recompose(message, &mut space)?;
    assert_eq!(rt; n, message.len());
    assert!(rt; space.starts_with(message));
    assert!(rt; space.get(n).copied() == Some(0xEE));
    Ok(())
}

// After so many good records the header at `place` is refused, and again at the next call.
fn refuses(rt: &impl Abort, message: &[u8], good: usize, place: usize) -> Result<(), Fail> {
    let mut reader = Reader::new(message);
    for _ in 0..good {
        let _ = next(&mut reader)?;
    }
    for _ in 0..2 {
        let refusal = reader.next_record().err().ok_or("not refused")?;
        assert_eq!(rt; refusal.number(), 30);
        assert_eq!(rt; refusal.place(), place);
    }
    Ok(())
}

#[test]
fn known_messages(rt: HostRuntime) -> Result<(), Fail> {
    let uri = b"\xD1\x01\x08U\x01nfc.com";
    reads(
        &rt,
        uri,
        &[Row {
            place: 0,
            number: 1,
            kind: b"U",
            id: b"",
            payload: b"\x01nfc.com",
        }],
    )?;
    comes_back(&rt, uri)?;
    let text = b"\xD1\x01\x10T\x02enHello, World!";
    reads(
        &rt,
        text,
        &[Row {
            place: 0,
            number: 1,
            kind: b"T",
            id: b"",
            payload: b"\x02enHello, World!",
        }],
    )?;
    comes_back(&rt, text)?;
    let media = b"\xD2\x0A\x03text/plainabc";
    reads(
        &rt,
        media,
        &[Row {
            place: 0,
            number: 2,
            kind: b"text/plain",
            id: b"",
            payload: b"abc",
        }],
    )?;
    comes_back(&rt, media)?;
    let empty = b"\xD0\x00\x00";
    reads(
        &rt,
        empty,
        &[Row {
            place: 0,
            number: 0,
            kind: b"",
            id: b"",
            payload: b"",
        }],
    )?;
    comes_back(&rt, empty)?;
    let unknown = b"\xD5\x00\x02\xCA\xFE";
    reads(
        &rt,
        unknown,
        &[Row {
            place: 0,
            number: 5,
            kind: b"",
            id: b"",
            payload: b"\xCA\xFE",
        }],
    )?;
    comes_back(&rt, unknown)
}

#[test]
fn several_records_and_ids(rt: HostRuntime) -> Result<(), Fail> {
    let list = b"\x99\x01\x04\x04T0012\x02enA\x14\x05\x00ex:ab\x59\x01\x01\x01Tz!";
    reads(
        &rt,
        list,
        &[
            Row {
                place: 0,
                number: 1,
                kind: b"T",
                id: b"0012",
                payload: b"\x02enA",
            },
            Row {
                place: 13,
                number: 4,
                kind: b"ex:ab",
                id: b"",
                payload: b"",
            },
            Row {
                place: 21,
                number: 1,
                kind: b"T",
                id: b"z",
                payload: b"!",
            },
        ],
    )?;
    comes_back(&rt, list)
}

#[test]
fn long_record(rt: HostRuntime) -> Result<(), Fail> {
    let payload = [0x61u8; 256];
    let mut message = b"\xC1\x01\x00\x00\x01\x00T".to_vec(rt.alloc())?;
    message.extend_from_slice(&payload)?;
    reads(
        &rt,
        &message,
        &[Row {
            place: 0,
            number: 1,
            kind: b"T",
            id: b"",
            payload: &payload,
        }],
    )?;
    comes_back(&rt, &message)?;
    // a long length where a short one would do is read too, and composed again it is shorter
    let loose = b"\xC1\x01\x00\x00\x00\x02Thi";
    reads(
        &rt,
        loose,
        &[Row {
            place: 0,
            number: 1,
            kind: b"T",
            id: b"",
            payload: b"hi",
        }],
    )?;
    let mut space = [0u8; 16];
    assert!(rt; recompose(loose, &mut space) == Ok(6));
    assert!(rt; space.starts_with(b"\xD1\x01\x02Thi\x00"));
    Ok(())
}

#[test]
fn refusals_at_their_places(rt: HostRuntime) -> Result<(), Fail> {
    refuses(&rt, b"", 0, 0)?;
    // a record past the end: no lengths, a type cut short, a payload cut short
    refuses(&rt, b"\xD1", 0, 0)?;
    refuses(&rt, b"\xD1\x02\x00T", 0, 0)?;
    refuses(&rt, b"\xD1\x01\x06Thous", 0, 0)?;
    // MB missing on the first record, and set on the second
    refuses(&rt, b"\x51\x01\x00T", 0, 0)?;
    refuses(&rt, b"\x91\x01\x00T\xD1\x01\x00T", 1, 4)?;
    // ME missing on the last record, and set on one before it
    refuses(&rt, b"\x91\x01\x00T", 0, 0)?;
    refuses(&rt, b"\xD1\x01\x00T\x51\x01\x00T", 0, 0)?;
    refuses(&rt, b"\x91\x01\x00T\x11\x01\x00T", 1, 4)?;
    // a chunk
    refuses(&rt, b"\xF1\x01\x00T", 0, 0)?;
    // type name formats 6 and 7
    refuses(&rt, b"\xD6\x00\x00", 0, 0)?;
    refuses(&rt, b"\xD7\x00\x00", 0, 0)?;
    // an empty record with a type, a payload or an ID, and an unknown one with a type
    refuses(&rt, b"\xD0\x01\x00T", 0, 0)?;
    refuses(&rt, b"\xD0\x00\x01!", 0, 0)?;
    refuses(&rt, b"\xD8\x00\x00\x01i", 0, 0)?;
    refuses(&rt, b"\xD5\x01\x00T", 0, 0)
}
