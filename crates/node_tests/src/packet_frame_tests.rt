//! What no clause says: that each call succeeds with ample memory, and that the fields are those of the captures and of
//! a second reader.

ghost use Rattle.std.specs.Prelude.{◌<◌, ◌≤◌, ◌+◌, ◌^◌, length};
ghost use Rattle.packet_frame.specs.Sent.{packet_map};
ghost use Rattle.packet_frame.specs.Sending.{MayBeEncoded};

use crate::captures::{REFUSED, WHOLE};
use crate::plain_decoder::length_of;
use call_path::CallPath;
use packet_frame::{Feeder, FrameError, FrameReason, Packet, decode, encode};
use prefix_tree::{OwnedTree, PrefixTree, Row};
use rank_set::RankSet;
use std::alloc::Global;
use std::process::Abort;

fn digit(c: u8) -> u8 {
    if c >= b'a' {
        c.wrapping_sub(87)
    } else {
        c.wrapping_sub(b'0')
    }
}

// The bytes of a text in hexadecimal, with spaces between them.
fn bytes_of(rt: &impl Abort, alloc: Global, text: &str) -> Vec<u8> {
    let mut bytes = Vec::new(alloc);
    let mut high = 0u8;
    let mut is_high = true;
    for c in text.as_bytes() {
        if *c == b' ' {
            continue;
        }
        if is_high {
            high = digit(*c).wrapping_mul(16);
        } else {
            bytes
                .push(high.wrapping_add(digit(*c)))
                .expect(rt, "memory");
        }
        is_high = !is_high;
    }
    bytes
}

// The bytes from a place on.
fn behind(bytes: &[u8], at: usize) -> &[u8] {
    if at > bytes.len() {
        return &[];
    }
    let (_, rest) = bytes.split_at(at);
    rest
}

// The bytes before a place.
fn before(bytes: &[u8], at: usize) -> &[u8] {
    if at > bytes.len() {
        return bytes;
    }
    let (front, _) = bytes.split_at(at);
    front
}

fn byte_at(bytes: &[u8], at: usize) -> u8 {
    match bytes.get(at) {
        Some(byte) => *byte,
        None => 0,
    }
}

fn refused(at: u64, reason: FrameReason) -> FrameError {
    FrameError::Refused { at, reason }
}

// The length of the frame at the front, by `decode`.
fn read_length(alloc: Global, bytes: &[u8]) -> Result<usize, FrameError> {
    match decode::<OwnedTree>(alloc, bytes) {
        Ok((_, length)) => Ok(length),
        Err(error) => Err(error),
    }
}

#[test]
fn reads_captures(rt: HostRuntime) {
    for (text, length) in &WHOLE {
        let bytes = bytes_of(&rt, rt.alloc(), text);
        assert!(rt; read_length(rt.alloc(), &bytes) == Ok(*length));
    }
}

// The refusal of bytes that so many bytes stand before.
fn moved(error: FrameError, taken: usize) -> FrameError {
    match error {
        FrameError::Refused { at, reason } => refused((taken as u64).wrapping_add(at), reason),
        FrameError::OutOfMemory => FrameError::OutOfMemory,
    }
}

// Reads frames one after another: how many bytes they take, or the refusal.
fn read_all(alloc: Global, bytes: &[u8]) -> Result<usize, FrameError> {
    let mut taken = 0usize;
    for _ in 0..bytes.len() {
        if taken >= bytes.len() {
            break;
        }
        match read_length(alloc, behind(bytes, taken)) {
            Ok(length) => taken = taken.wrapping_add(length),
            Err(error) => return Err(moved(error, taken)),
        }
    }
    Ok(taken)
}

#[test]
fn refuses_captures(rt: HostRuntime) {
    for (text, at, reason) in &REFUSED {
        let bytes = bytes_of(&rt, rt.alloc(), text);
        assert!(rt; read_all(rt.alloc(), &bytes) == Err(refused(*at, *reason)));
    }
}

// Four packets of a net with a front end and two daemons, in both versions, and how long their frames are.
const FIRST: &str =
    "01010000 00000001 0000000000000002 0002 01 0004 6d61696e 00000000 02 0002 696f 00000001 0000000000000002 \
     01010000 00000001 0000000000000001 0001 01 0004 6d61696e 00000001 0000000000000001 01020000 01020000";

const SECOND: &str =
    "02010000 00000001 00000001 00000001 0002 01 0004 6d61696e 00000000 02 0002 696f 00000001 0000000000000001 \
     02010000 00000001 00000000 00000000 0001 01 0004 6d61696e 00000001 0000000000000001 02020000 02020000";

const LENGTHS: [usize; 4] = [46, 37, 4, 4];

// That a packet may be sent.
fn check<T: PrefixTree>(rt: &impl Abort, packet: &Packet<T>)
    ensures { MayBeEncoded (packet_map T.tree packet.now) }
{
    match packet {
        Packet::Up { stream, wave, tree } => {
            assert!(rt; *stream < 8);
            assert!(rt; *wave < 16);
            assert!(rt; tree.row(0).label.count() > 0);
        }
        Packet::Done { stream, wave } => {
            assert!(rt; *stream < 8);
            assert!(rt; *wave < 16);
        }
        Packet::Attach => {}
        Packet::Down => {}
    }
}

// Appends the frame of a packet.
fn put<T: PrefixTree>(rt: &impl Abort, alloc: Global, packet: &Packet<T>, out: &mut Vec<u8>) {
    check(rt, packet);
    let frame = encode(alloc, packet).expect(rt, "memory");
    out.extend_from_slice(frame.bytes()).expect(rt, "memory");
}

// Appends the frame of the packet that was read at the front, and gives how many bytes were read.
fn write_again<T: PrefixTree>(
    rt: &impl Abort,
    alloc: Global,
    bytes: &[u8],
    out: &mut Vec<u8>,
) -> usize {
    let (packet, length) = decode::<T>(alloc, bytes).expect(rt, "a frame");
    put(rt, alloc, &packet, out);
    length
}

// The frames of the packets that were read at the front, one after another.
fn written_again(rt: &impl Abort, alloc: Global, bytes: &[u8]) -> Vec<u8> {
    let mut out = Vec::new(alloc);
    let mut taken = 0usize;
    for want in &LENGTHS {
        let length = write_again::<OwnedTree>(rt, alloc, behind(bytes, taken), &mut out);
        assert!(rt; length == *want);
        taken = taken.wrapping_add(length);
    }
    assert!(rt; taken == bytes.len());
    out
}

#[test]
fn writes_what_was_read(rt: HostRuntime) {
    let want = bytes_of(&rt, rt.alloc(), SECOND);
    assert!(rt; want.len() == 91);
    for text in &[FIRST, SECOND] {
        let bytes = bytes_of(&rt, rt.alloc(), text);
        let out = written_again(&rt, rt.alloc(), &bytes);
        assert!(rt; out.as_slice() == want.as_slice());
    }
}

#[test]
fn writes_attach_and_down(rt: HostRuntime) {
    let mut out = Vec::new(rt.alloc());
    put::<OwnedTree>(&rt, rt.alloc(), &Packet::Attach, &mut out);
    put::<OwnedTree>(&rt, rt.alloc(), &Packet::Down, &mut out);
    assert!(rt; out.as_slice() == [2, 3, 2, 4].as_slice());
}

// What a piece gives: the lengths of the frames that become whole.
fn fed<T: PrefixTree>(
    alloc: Global,
    feeder: &mut Feeder<T>,
    piece: &[u8],
) -> Result<Vec<usize>, FrameError>
    requires { feeder.old.before + length feeder.old.rest + length piece.now < 2 ^ 64 }
    ensures { feeder.new.before + length feeder.new.rest
        ≤ feeder.old.before + length feeder.old.rest + length piece.now }
{
    let packets = feeder.feed(alloc, piece)?;
    let mut lengths = Vec::new(alloc);
    for (_, length) in &packets {
        lengths.push(*length)?;
    }
    Ok(lengths)
}

// Puts the lengths of the frames of a piece behind others.
fn put_fed<T: PrefixTree>(
    rt: &impl Abort,
    alloc: Global,
    feeder: &mut Feeder<T>,
    piece: &[u8],
    lengths: &mut Vec<usize>,
)
    requires { feeder.old.before + length feeder.old.rest + length piece.now < 2 ^ 64 }
    ensures { feeder.new.before + length feeder.new.rest
        ≤ feeder.old.before + length feeder.old.rest + length piece.now }
{
    let more = fed(alloc, feeder, piece).expect(rt, "frames");
    lengths.extend_from_slice(&more).expect(rt, "memory");
}

// The lengths of the frames of two pieces.
fn fed_in_two<T: PrefixTree>(
    rt: &impl Abort,
    alloc: Global,
    first: &[u8],
    second: &[u8],
) -> Vec<usize> {
    let mut feeder: Feeder<T> = Feeder::new(alloc);
    let mut lengths = Vec::new(alloc);
    put_fed(rt, alloc, &mut feeder, first, &mut lengths);
    put_fed(rt, alloc, &mut feeder, second, &mut lengths);
    assert!(rt; feeder.finish().is_ok());
    lengths
}

#[test]
fn feeds_two_pieces(rt: HostRuntime) {
    for text in &[FIRST, SECOND] {
        let bytes = bytes_of(&rt, rt.alloc(), text);
        assert!(rt; bytes.len() == 91);
        for at in 0..92usize {
            let (front, rest) = (before(&bytes, at), behind(&bytes, at));
            let lengths = fed_in_two::<OwnedTree>(&rt, rt.alloc(), front, rest);
            assert!(rt; lengths.as_slice() == LENGTHS.as_slice());
        }
    }
}

// The lengths of the frames of 91 bytes that come one by one.
fn fed_by_bytes<T: PrefixTree>(rt: &impl Abort, alloc: Global, bytes: &[u8]) -> Vec<usize> {
    let mut feeder: Feeder<T> = Feeder::new(alloc);
    let mut lengths = Vec::new(alloc);
    for i in 0..91usize {
        put_fed(rt, alloc, &mut feeder, &[byte_at(bytes, i)], &mut lengths);
    }
    assert!(rt; feeder.finish().is_ok());
    lengths
}

#[test]
fn feeds_byte_by_byte(rt: HostRuntime) {
    for text in &[FIRST, SECOND] {
        let bytes = bytes_of(&rt, rt.alloc(), text);
        let lengths = fed_by_bytes::<OwnedTree>(&rt, rt.alloc(), &bytes);
        assert!(rt; lengths.as_slice() == LENGTHS.as_slice());
    }
}

// Two pieces, the lengths of the frames that each gives or its refusal, and what the end gives.
struct Stream {
    first: &'static str,
    second: &'static str,
    gives: &'static [usize],
    then: Option<&'static [usize]>,
    end: Option<(u64, FrameReason)>,
}

// The second piece is refused where it gives nothing.
const STREAMS: [Stream; 12] = [
    Stream {
        first: "",
        second: "",
        gives: &[],
        then: Some(&[]),
        end: None,
    },
    Stream {
        first: "0103 0204",
        second: "01020000",
        gives: &[2, 2],
        then: Some(&[4]),
        end: None,
    },
    Stream {
        first: "0103 02",
        second: "",
        gives: &[2],
        then: Some(&[]),
        end: Some((3, FrameReason::Short)),
    },
    Stream {
        first: "0103 020200",
        second: "00 0203 0202",
        gives: &[2],
        then: Some(&[4, 2]),
        end: Some((10, FrameReason::Short)),
    },
    Stream {
        first: "0103",
        second: "0204 0109",
        gives: &[2],
        then: None,
        end: Some((5, FrameReason::BadKind)),
    },
    Stream {
        first: "0103 01",
        second: "09",
        gives: &[2],
        then: None,
        end: Some((3, FrameReason::BadKind)),
    },
    Stream {
        first: "0103 0102",
        second: "0000 0204 03",
        gives: &[2],
        then: None,
        end: Some((8, FrameReason::BadKind)),
    },
    Stream {
        first: "0103 0101000000000001 00",
        second: "00000000000000",
        gives: &[2],
        then: None,
        end: Some((10, FrameReason::NotCanonical)),
    },
    Stream {
        first: "0103 0101000000000001 00",
        second: "000000000000",
        gives: &[2],
        then: Some(&[]),
        end: Some((10, FrameReason::Short)),
    },
    Stream {
        first: "0201",
        second: "08",
        gives: &[],
        then: None,
        end: Some((2, FrameReason::OverLimit)),
    },
    Stream {
        first: "01020000 0201000000000001000000000000000000010100046d61",
        second: "696e000000010000000000000001 0202",
        gives: &[4],
        then: Some(&[37]),
        end: Some((43, FrameReason::Short)),
    },
    Stream {
        first: "01020000 0201000000000001000000000000000000010100046d61",
        second: "3b6e",
        gives: &[4],
        then: None,
        end: Some((25, FrameReason::NotCanonical)),
    },
];

// What is fed is the lengths that are wanted, or is refused where none are.
fn is_wanted(
    found: Result<Vec<usize>, FrameError>,
    want: Option<&[usize]>,
    end: Result<(), FrameError>,
) -> bool {
    match (found, want) {
        (Ok(lengths), Some(want)) => lengths.as_slice() == want,
        (Err(error), None) => end == Err(error),
        _ => false,
    }
}

fn assert_stream<T: PrefixTree>(rt: &impl Abort, alloc: Global, stream: &Stream) {
    let end = match stream.end {
        Some((at, reason)) => Err(refused(at, reason)),
        None => Ok(()),
    };
    let first = bytes_of(rt, alloc, stream.first);
    let second = bytes_of(rt, alloc, stream.second);
    let mut feeder: Feeder<T> = Feeder::new(alloc);
    let found = fed(alloc, &mut feeder, &first);
    assert!(rt; is_wanted(found, Some(stream.gives), Ok(())));
    let found = fed(alloc, &mut feeder, &second);
    assert!(rt; is_wanted(found, stream.then, end));
    assert!(rt; feeder.finish() == end);
}

#[test]
fn feeds_streams(rt: HostRuntime) {
    for stream in &STREAMS {
        assert_stream::<OwnedTree>(&rt, rt.alloc(), stream);
    }
}

// Whether a piece is refused as an unknown kind at place 1, and the end, too.
fn is_refused<T: PrefixTree>(alloc: Global, feeder: &mut Feeder<T>, piece: &[u8]) -> bool
    requires { feeder.old.before + length feeder.old.rest + length piece.now < 2 ^ 64 }
    ensures { feeder.new.before + length feeder.new.rest
        ≤ feeder.old.before + length feeder.old.rest + length piece.now }
{
    let want = refused(1, FrameReason::BadKind);
    fed(alloc, feeder, piece).err() == Some(want) && feeder.finish() == Err(want)
}

fn assert_refused_again<T: PrefixTree>(rt: &impl Abort, alloc: Global) {
    let mut feeder: Feeder<T> = Feeder::new(alloc);
    assert!(rt; is_refused(alloc, &mut feeder, &[1, 9]));
    assert!(rt; is_refused(alloc, &mut feeder, &[1, 3]));
    assert!(rt; is_refused(alloc, &mut feeder, &[]));
}

// The refusal stays, whatever comes.
#[test]
fn refuses_again(rt: HostRuntime) {
    assert_refused_again::<OwnedTree>(&rt, rt.alloc());
}

fn rank(i: u32) -> u32 {
    i % 40 * 7 + 3
}

// A tree with ranks of several words, with gaps, and one more.
fn covered<T: PrefixTree>(rt: &impl Abort, alloc: Global, top: u32) -> T {
    let mut ranks = RankSet::new(alloc);
    for i in 0..40u32 {
        ranks.insert(rank(i)).expect(rt, "below the limit");
    }
    ranks.insert(top).expect(rt, "below the limit");
    let mut tree = T::empty(alloc);
    tree.cover(&ranks).expect(rt, "memory");
    tree
}

// Adds a path of two ranks.
fn add<T: PrefixTree>(rt: &impl Abort, alloc: Global, tree: &mut T, pair: &[u32; 2], text: &str) {
    let mut ranks = RankSet::new(alloc);
    for rank in pair {
        ranks.insert(*rank).expect(rt, "below the limit");
    }
    let path = CallPath::read(alloc, text).expect(rt, "good");
    assert!(rt; ranks.count() > 0);
    assert!(rt; ranks.is_subset(tree.row(0).label));
    tree.add(&ranks, &path).expect(rt, "a path");
}

fn is_same(row: &Row<'_>, other: &Row<'_>) -> bool {
    row.depth == other.depth
        && row.frame == other.frame
        && row.label.equals(other.label)
        && row.ends.equals(other.ends)
}

// A tree's frame reads as that tree.
fn assert_sent<T: PrefixTree>(rt: &impl Abort, alloc: Global, tree: T) {
    let sent = Packet::Up {
        stream: 7,
        wave: 15,
        tree,
    };
    let mut bytes = Vec::new(alloc);
    put(rt, alloc, &sent, &mut bytes);
    assert!(rt; length_of(alloc, &bytes) == Ok(bytes.len()));
    assert_read(rt, alloc, &bytes, &sent);
}

// Bytes are the frame of what was sent.
fn assert_read<T: PrefixTree>(rt: &impl Abort, alloc: Global, bytes: &[u8], sent: &Packet<T>) {
    let (got, length) = decode::<T>(alloc, bytes).expect(rt, "a frame");
    assert!(rt; length == bytes.len());
    assert_same(rt, sent, &got);
}

fn assert_same<T: PrefixTree>(rt: &impl Abort, sent: &Packet<T>, got: &Packet<T>) {
    let Packet::Up { tree: left, .. } = sent else {
        return;
    };
    let Packet::Up { stream, wave, tree } = got else {
        panic!(rt; "no tree");
    };
    assert!(rt; *stream == 7 && *wave == 15);
    assert!(rt; tree.rows() == left.rows());
    for i in 0..left.rows() {
        assert!(rt; is_same(&left.row(i), &tree.row(i)));
    }
}

// A tree of 2,048 rows.
fn full<T: PrefixTree>(rt: &impl Abort, alloc: Global) -> T {
    let mut tree = covered(rt, alloc, 300);
    for i in 0..2_048u32 {
        let text = format!(in alloc; "f{i}").expect(rt, "memory");
        add(rt, alloc, &mut tree, &[rank(i), 300], &text);
    }
    tree
}

#[test]
fn sends_a_full_tree(rt: HostRuntime) {
    let tree = full::<OwnedTree>(&rt, rt.alloc());
    assert!(rt; tree.rows() == 2_049);
    assert_sent(&rt, rt.alloc(), tree);
}

fn repeated(rt: &impl Abort, alloc: Global, part: &str, times: usize, end: &str) -> String {
    let mut text = String::new(alloc);
    for _ in 0..times {
        text.push_str(part).expect(rt, "memory");
    }
    text.push_str(end).expect(rt, "memory");
    text
}

// A part, how often it stands in a path, what stands behind it, and how many rows the path has.
const LONG: [(&str, usize, &str, usize); 4] = [
    ("a;", 127, "a", 128),
    ("b;", 126, "c", 127),
    ("n", 1_023, "", 1),
    ("\u{e9}", 511, "n;x", 2),
];

fn assert_sent_path<T: PrefixTree>(rt: &impl Abort, alloc: Global, text: &str, rows: usize) {
    let mut tree = covered::<T>(rt, alloc, 1_048_575);
    add(rt, alloc, &mut tree, &[38, 1_048_575], text);
    assert!(rt; tree.rows() == rows.wrapping_add(1));
    assert_sent(rt, alloc, tree);
}

#[test]
fn sends_long_paths(rt: HostRuntime) {
    for (part, times, end, rows) in &LONG {
        let text = repeated(&rt, rt.alloc(), part, *times, end);
        assert_sent_path::<OwnedTree>(&rt, rt.alloc(), &text, *rows);
    }
}

// Paths that share frames.
const PATHS: [&str; 8] = [
    "m;a;x", "m;a", "n", "m;b;y;z", "a", "m", "m;a;w", "\u{e9};m",
];

fn assert_sent_branches<T: PrefixTree>(rt: &impl Abort, alloc: Global) {
    let mut tree = covered::<T>(rt, alloc, 1_048_575);
    let mut rank = 3u32;
    for text in &PATHS {
        add(rt, alloc, &mut tree, &[rank, 1_048_575], text);
        rank = rank.wrapping_add(28);
    }
    assert_sent(rt, alloc, tree);
}

#[test]
fn sends_branches(rt: HostRuntime) {
    assert_sent_branches::<OwnedTree>(&rt, rt.alloc());
}

// `decode` answers as the plain reader does.
fn assert_agree(rt: &impl Abort, alloc: Global, bytes: &[u8]) {
    let want = length_of(alloc, bytes);
    assert!(rt; want != Err(FrameError::OutOfMemory));
    assert!(rt; read_length(alloc, bytes) == want);
}

// Frames with rows at several depths, with siblings, and with sets of several words.
const BRANCHES: [&str; 4] = [
    "01010000 0001 0003 8000000000000001 0000000000000000 0000000000000005 0005 \
     01 0001 61 0001 0001 0000000000000001 02 0002 c3a9 0000 0000 03 0001 7a 0003 0001 0000000000000004 \
     02 0003 e282ac 0001 0003 8000000000000000 0000000000000000 0000000000000001 \
     01 0002 6162 0001 0001 8000000000000001",
    "02010000 00000003 00000001 00000003 00000007 00000007 00000040 00000043 0006 \
     01 0001 61 0000 0001 0000000000000001 02 0001 62 0000 0000 03 0001 63 0000 0001 0000000000000002 \
     02 0001 64 0000 0001 00000000000000ff 02 0002 6464 0000 0001 0000000000000080 \
     01 0001 62 0000 0001 000000000000000f",
    "02010307 00000002 00000000 0000003e 00000040 00000043 0004 \
     01 0001 61 0000 0002 0000000000000001 0000000000000003 02 0001 62 0001 0001 0000000000000004 \
     01 0004 f09f9880 0000 0000 02 0001 7e 0000 0001 8000000000000000",
    "02010000 00000001 000fff00 000fffff 0002 \
     01 0001 61 0003 0001 8000000000000000 01 0001 62 0000 0003 8000000000000000 0000000000000000 0000000000000001",
];

// Bytes that other bytes are changed to.
const CHANGES: [u8; 22] = [
    0, 1, 2, 3, 4, 5, 7, 8, 15, 16, 0x1F, 0x3B, 0x3F, 0x40, 0x61, 0x62, 0x7F, 0x80, 0xA9, 0xC3,
    0xE9, 0xFF,
];

fn set_byte(bytes: &mut Vec<u8>, at: usize, value: u8) {
    if let Some(byte) = bytes.get_mut(at) {
        *byte = value;
    }
}

// Each byte changed to each other, and cut at each place.
fn assert_changes(rt: &impl Abort, alloc: Global, text: &str) {
    let mut bytes = bytes_of(rt, alloc, text);
    assert_agree(rt, alloc, &bytes);
    for at in 0..bytes.len() {
        assert_agree(rt, alloc, before(&bytes, at));
        for change in &CHANGES {
            let old = byte_at(&bytes, at);
            set_byte(&mut bytes, at, *change);
            assert_agree(rt, alloc, &bytes);
            set_byte(&mut bytes, at, old);
        }
    }
}

#[test]
fn agrees_on_changed_captures(rt: HostRuntime) {
    for (text, _) in &WHOLE {
        assert_changes(&rt, rt.alloc(), text);
    }
}

#[test]
fn agrees_on_changed_branches(rt: HostRuntime) {
    for text in &BRANCHES {
        let bytes = bytes_of(&rt, rt.alloc(), text);
        assert!(rt; length_of(rt.alloc(), &bytes) == Ok(bytes.len()));
        assert_changes(&rt, rt.alloc(), text);
    }
}

// A number after another, of no pattern.
fn after(seed: u32) -> u32 {
    seed.wrapping_mul(1_664_525).wrapping_add(1_013_904_223)
}

// What stands before bytes of no pattern.
const HEADERS: [&str; 8] = [
    "",
    "0101 0000",
    "0201 0000",
    "01010000 0000 0001 0000000000000003 0003",
    "02010000 00000001 00000004 00000006 0003",
    "01010000 0000 0001 0000000000000003 0002 01 0001",
    "02010000 00000001 00000004 00000006 0003 01 0001 61 0000 0001 0000000000000007",
    "02010000 00000001 00000004 00000006 0003 01 0001 61 0000 0000 02 0001",
];

// The few bytes of which the bytes of no pattern are taken.
const BYTES: [u8; 16] = [0, 0, 0, 0, 0, 0, 1, 1, 1, 2, 2, 3, 0x61, 0x62, 0xC3, 0x80];

fn assert_picked(rt: &impl Abort, alloc: Global, header: &str, seed: u32) {
    let mut bytes = bytes_of(rt, alloc, header);
    let mut seed = after(seed);
    for _ in 0..32 {
        let byte = byte_at(&BYTES, (seed >> 24) as usize % 16);
        bytes.push(byte).expect(rt, "memory");
        seed = after(seed);
    }
    assert_agree(rt, alloc, &bytes);
}

#[test]
fn agrees_on_bytes_of_no_pattern(rt: HostRuntime) {
    for header in &HEADERS {
        for seed in 0..4_000u32 {
            assert_picked(&rt, rt.alloc(), header, seed);
        }
    }
}
