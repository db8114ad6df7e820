// The composer on known descriptions: the bytes that it leaves, and each refusal.
use composer::{Description, Extent, compose};
use ndef::Format;
use std::process::Abort;
use std::test::Fail;

// a type, an ID and a payload in one store
const STORE: &[u8] = b"T0012\x02enMill Lane 4";

const NOTHING: Extent = Extent { place: 0, len: 0 };

fn house() -> Description {
    Description {
        format: Format::WellKnown,
        kind: Extent { place: 0, len: 1 },
        id: Extent { place: 1, len: 4 },
        payload: Extent { place: 5, len: 14 },
    }
}

fn nothing(format: Format) -> Description {
    Description {
        format,
        kind: NOTHING,
        id: NOTHING,
        payload: NOTHING,
    }
}

// The descriptions are composed as this message, and the space behind it stays.
fn makes(
    rt: &impl Abort,
    descriptions: &[Description],
    store: &[u8],
    message: &[u8],
) -> Result<(), Fail> {
    let mut space = [0xEEu8; 400];
    let n = compose(descriptions, store, &mut space)?;
    assert_eq!(rt; n, message.len());
    assert!(rt; space.starts_with(message));
    assert!(rt; space.get(n).copied() == Some(0xEE));
    Ok(())
}

// Refused, and the space stays as it was.
fn refuses(
    rt: &impl Abort,
    descriptions: &[Description],
    store: &[u8],
    number: u8,
    place: usize,
) -> Result<(), Fail> {
    let mut space = [0xEEu8; 20];
    let refusal = compose(descriptions, store, &mut space)
        .err()
        .ok_or("not refused")?;
    assert_eq!(rt; refusal.number(), number);
    assert_eq!(rt; refusal.place(), place);
    assert!(rt; space == [0xEEu8; 20]);
    Ok(())
}

#[test]
fn houses(rt: HostRuntime) -> Result<(), Fail> {
    makes(
        &rt,
        &[house()],
        STORE,
        b"\xD9\x01\x0E\x04T0012\x02enMill Lane 4",
    )?;
    makes(
        &rt,
        &[house(), nothing(Format::Empty), nothing(Format::Unknown)],
        STORE,
        b"\x99\x01\x0E\x04T0012\x02enMill Lane 4\x10\x00\x00\x55\x00\x00",
    )
}

#[test]
fn payloads_around_255(rt: HostRuntime) {
    let store = [0x61u8; 256];
    let mut description = nothing(Format::Media);
    description.kind = Extent { place: 0, len: 1 };
    description.payload = Extent { place: 1, len: 255 };
    let mut space = [0u8; 400];
    assert!(rt; compose(&[description], &store, &mut space) == Ok(259));
    assert!(rt; space.starts_with(b"\xD2\x01\xFFaaa"));
    description.payload = Extent { place: 0, len: 256 };
    assert!(rt; compose(&[description], &store, &mut space) == Ok(263));
    assert!(rt; space.starts_with(b"\xC2\x01\x00\x00\x01\x00aaa"));
}

#[test]
fn refusals(rt: HostRuntime) -> Result<(), Fail> {
    // no records; the space too short
    refuses(&rt, &[], STORE, 31, 0)?;
    refuses(&rt, &[house(), house()], STORE, 4, 0)?;
    // formats that no whole record has, and lengths that a format does not allow
    refuses(&rt, &[nothing(Format::Unchanged)], STORE, 31, 0)?;
    refuses(&rt, &[house(), nothing(Format::Reserved)], STORE, 31, 1)?;
    let mut bad = house();
    bad.format = Format::Empty;
    refuses(&rt, &[house(), house(), bad], STORE, 31, 2)?;
    bad.format = Format::Unknown;
    refuses(&rt, &[bad], STORE, 31, 0)?;
    // a part outside the store, by one byte and by far
    let mut far = house();
    far.payload = Extent { place: 6, len: 14 };
    refuses(&rt, &[house(), far], STORE, 31, 1)?;
    far.payload = Extent {
        place: usize::MAX,
        len: 2,
    };
    refuses(&rt, &[far], STORE, 31, 0)
}

#[test]
fn long_parts_are_refused(rt: HostRuntime) -> Result<(), Fail> {
    let store = [0x61u8; 256];
    let mut description = nothing(Format::Media);
    description.kind = Extent { place: 0, len: 256 };
    refuses(&rt, &[description], &store, 31, 0)?;
    description.kind = NOTHING;
    description.id = Extent { place: 0, len: 256 };
    refuses(&rt, &[description], &store, 31, 0)
}

#[test]
fn longest_message(rt: HostRuntime) -> Result<(), Fail> {
    let store = vec![in rt.alloc(); 0x61u8; 65_600]?;
    let mut space = vec![in rt.alloc(); 0u8; 65_600]?;
    let mut description = nothing(Format::Media);
    description.kind = Extent { place: 0, len: 1 };
    description.payload = Extent {
        place: 0,
        len: 65_527,
    };
    assert!(rt; compose(&[description], &store, &mut space) == Ok(65_534));
    description.payload = Extent {
        place: 0,
        len: 65_528,
    };
    let refusal = compose(&[description], &store, &mut space)
        .err()
        .ok_or("one byte too long, and composed")?;
    assert_eq!(rt; refusal.number(), 31);
    assert_eq!(rt; refusal.place(), 0);
    Ok(())
}
