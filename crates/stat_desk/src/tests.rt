//! Each public call once with ample memory, faults at numbered calls, and the real files.
use super::*;
use std::alloc::{AllocError, Global};
use std::fs;

fn text_of(alloc: Global, text: &str) -> Result<String, AllocError> {
    String::from_str(alloc, text)
}

#[test]
fn memory_desk_gives_and_fails(rt: HostRuntime) -> Result<(), AllocError> {
    let alloc = rt.alloc();
    let mut desk = MemDesk::new(alloc);
    desk.put(text_of(alloc, "a")?, b"old".to_vec(alloc)?)?;
    desk.put(text_of(alloc, "b")?, b"".to_vec(alloc)?)?;
    desk.put(text_of(alloc, "a")?, b"four".to_vec(alloc)?)?;
    desk.fail_at(2)?;
    let reads: [(&str, u64, Result<&[u8], DeskError>); 7] = [
        ("a", 4, Ok(b"four")),
        ("a", 4, Err(DeskError::Failed)),
        ("a", 4, Ok(b"four")),
        ("a", 3, Err(DeskError::TooLong)),
        ("absent", 4, Err(DeskError::Failed)),
        ("b", 0, Ok(b"")),
        ("a", 100, Ok(b"four")),
    ];
    for (name, max, want) in reads {
        match (desk.read(name, max), want) {
            (Ok(bytes), Ok(file)) => assert_eq!(rt; bytes.as_slice(), file, "{name} {max}"),
            (Err(fault), Err(why)) => assert_eq!(rt; fault, why, "{name} {max}"),
            _ => assert!(rt; false, "{name} {max}"),
        }
    }
    Ok(())
}

#[test]
fn memory_sink_takes_and_fails(rt: HostRuntime) -> Result<(), AllocError> {
    let alloc = rt.alloc();
    let text: &[u8] = b"a text of forty bytes, taken by sixteens";
    let mut sink = MemSink::new(alloc, 16, 40)?;
    assert_eq!(rt; write_all_to(&mut sink, text), Ok(()));
    assert_eq!(rt; sink.bytes(), text);
    assert_eq!(rt; sink.write(b""), Ok(0));
    assert_eq!(rt; sink.write(b"x"), Err(SinkError::Failed));

    let mut sink = MemSink::new(alloc, 16, 40)?;
    sink.fail_at(2)?;
    assert_eq!(rt; write_all_to(&mut sink, b""), Ok(()));
    assert_eq!(rt; write_all_to(&mut sink, text), Err(SinkError::Failed));
    assert_eq!(rt; sink.bytes(), b"a text of forty ".as_slice());
    assert_eq!(rt; sink.write(b"more than sixteen bytes"), Ok(16));
    Ok(())
}

#[test]
fn memory_sink_stalls(rt: HostRuntime) -> Result<(), AllocError> {
    let alloc = rt.alloc();
    let mut sink = MemSink::new(alloc, 16, 40)?;
    sink.stall_at(1)?;
    sink.stall_at(3)?;
    sink.fail_at(3)?;
    assert_eq!(rt; sink.write(b""), Ok(0));
    assert_eq!(rt; sink.write(b"some bytes"), Ok(10));
    assert_eq!(rt; sink.write(b"x"), Err(SinkError::Failed));
    assert_eq!(rt; sink.write(b"more"), Ok(4));
    assert_eq!(rt; sink.bytes(), b"some bytesmore".as_slice());
    Ok(())
}

#[test]
fn file_desk_reads_real_files(rt: HostRuntime) -> Result<(), AllocError> {
    let alloc = rt.alloc();
    let mut long = Vec::new(alloc);
    for number in 0..100_000u32 {
        long.push((number % 251) as u8)?;
    }
    assert!(rt; fs::write(&rt, "short", "four").is_ok());
    assert!(rt; fs::write(&rt, "empty", "").is_ok());
    assert!(rt; fs::write(&rt, "long", long.as_slice()).is_ok());
    let mut desk = FileDesk::new(alloc, &rt);
    let reads: [(&str, u64, Result<&[u8], DeskError>); 8] = [
        ("short", 4, Ok(b"four")),
        ("short", u64::MAX, Ok(b"four")),
        ("short", 3, Err(DeskError::TooLong)),
        ("empty", 0, Ok(b"")),
        ("short", 0, Err(DeskError::TooLong)),
        ("absent", 4, Err(DeskError::Failed)),
        ("long", 100_000, Ok(long.as_slice())),
        ("long", 99_999, Err(DeskError::TooLong)),
    ];
    for (name, max, want) in reads {
        match (desk.read(name, max), want) {
            (Ok(bytes), Ok(file)) => assert_eq!(rt; bytes.as_slice(), file, "{name} {max}"),
            (Err(fault), Err(why)) => assert_eq!(rt; fault, why, "{name} {max}"),
            _ => assert!(rt; false, "{name} {max}"),
        }
    }
    Ok(())
}

// Bytes that came in pieces, joined.
#[derive(Drop)]
struct Joined {
    bytes: Vec<u8>,
    pieces: u32,
}

impl Feed for Joined {
    ghost feeds = { λ _ _ _. Unit {0} };

    fn feed(&mut self, piece: &[u8]) {
        self.pieces = self.pieces.saturating_add(1);
        let _ = self.bytes.extend_from_slice(piece);
    }
}

#[test]
fn desks_feed_files_in_pieces(rt: HostRuntime) -> Result<(), AllocError> {
    let alloc = rt.alloc();
    let mut long = Vec::new(alloc);
    for number in 0..140_000u32 {
        long.push((number % 251) as u8)?;
    }
    assert!(rt; fs::write(&rt, "pieces", long.as_slice()).is_ok());
    let mut desk = FileDesk::new(alloc, &rt);
    let reads: [(&str, u64, Result<(), DeskError>); 3] = [
        ("pieces", 140_000, Ok(())),
        ("pieces", 139_999, Err(DeskError::TooLong)),
        ("absent", 140_000, Err(DeskError::Failed)),
    ];
    for (name, max, want) in reads {
        let mut joined = Joined {
            bytes: Vec::new(alloc),
            pieces: 0,
        };
        assert_eq!(rt;
            desk.read_pieces(name, max, &mut joined),
            want,
            "{name} {max}"
        );
        if want.is_ok() {
            assert!(rt; joined.pieces > 1);
            assert_eq!(rt; joined.bytes.as_slice(), long.as_slice());
        }
    }
    Ok(())
}

#[test]
fn standard_output_takes_bytes(rt: HostRuntime) {
    let mut sink = StdSink::new(&rt);
    assert_eq!(rt; write_all_to(&mut sink, b"a line\n"), Ok(()));
    assert_eq!(rt; sink.write(b""), Ok(0));
}

#[test]
fn file_sink_makes_its_file_at_the_first_write(rt: HostRuntime) -> Result<(), AllocError> {
    let alloc = rt.alloc();
    assert!(rt; fs::write(&rt, "kept", "what was there").is_ok());
    let mut sink = FileSink::new(&rt, text_of(alloc, "kept")?);
    assert_eq!(rt; write_all_to(&mut sink, b""), Ok(()));
    assert_eq!(rt; sink.write(b""), Ok(0));
    assert!(rt;
        fs::read(&rt, "kept").is_ok_and(|bytes| bytes.as_slice() == b"what was there".as_slice())
    );
    assert_eq!(rt; write_all_to(&mut sink, b"two "), Ok(()));
    assert_eq!(rt; write_all_to(&mut sink, b"pieces"), Ok(()));
    assert!(rt;
        fs::read(&rt, "kept").is_ok_and(|bytes| bytes.as_slice() == b"two pieces".as_slice())
    );
    let mut nowhere = FileSink::new(&rt, text_of(alloc, "absent/file")?);
    assert_eq!(rt; write_all_to(&mut nowhere, b"x"), Err(SinkError::Failed));
    Ok(())
}
