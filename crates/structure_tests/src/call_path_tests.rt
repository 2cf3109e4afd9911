ghost use Rattle.std.specs.Prelude.{IsTrue};
ghost use Rattle.call_path.specs.Good.{is_good_frame};

use call_path::{CallPath, FRAME_LIMIT, PathBuilder, PathError};
use std::alloc::Global;
use std::cmp::Ordering;
use std::process::Abort;

fn sent<T: Send>(value: T) -> T {
    value
}

fn path_of(rt: &impl Abort, alloc: Global, text: &str) -> CallPath {
    CallPath::read(alloc, text).expect(rt, "good")
}

fn error(alloc: Global, text: &str) -> Option<PathError> {
    CallPath::read(alloc, text).err()
}

const REFUSALS: [(&str, Option<PathError>); 11] = [
    ("", Some(PathError::EmptyFrame(0))),
    (";a", Some(PathError::EmptyFrame(0))),
    ("a;;b", Some(PathError::EmptyFrame(1))),
    ("a;", Some(PathError::EmptyFrame(1))),
    ("a;\u{1};;", Some(PathError::ControlByte(2))),
    ("ab\u{1f}", Some(PathError::ControlByte(2))),
    ("a;b\tc", Some(PathError::ControlByte(3))),
    ("é;\u{7f}", Some(PathError::ControlByte(3))),
    ("main;a", None),
    ("é", None),
    (" a ", None),
];

#[test]
fn refuses_with_places(rt: HostRuntime) {
    for (text, want) in &REFUSALS {
        assert!(rt; error(rt.alloc(), text) == *want);
    }
}

// A part, how often it stands in the text, and what stands after it.
const LIMITS: [(&str, usize, &str, Option<PathError>); 9] = [
    ("a", 1_023, "", None),
    ("a", 1_024, "", Some(PathError::FrameTooLong(0))),
    ("a", 1_024, "\u{1}", Some(PathError::FrameTooLong(0))),
    ("é", 511, "a", None),
    ("é", 512, "", Some(PathError::FrameTooLong(0))),
    ("a;", 127, "a", None),
    ("a;", 128, "a", Some(PathError::TooDeep)),
    ("a;", 128, "", Some(PathError::TooDeep)),
    ("a;", 127, "", Some(PathError::EmptyFrame(127))),
];

fn repeated(rt: &impl Abort, alloc: Global, part: &str, times: usize, end: &str) -> String {
    let mut text = String::new(alloc);
    for _ in 0..times {
        text.push_str(part).expect(rt, "memory");
    }
    text.push_str(end).expect(rt, "memory");
    text
}

#[test]
fn refuses_past_limits(rt: HostRuntime) {
    for (part, times, end, want) in &LIMITS {
        let text = repeated(&rt, rt.alloc(), part, *times, end);
        assert!(rt; error(rt.alloc(), &text) == *want);
    }
}

fn assert_text(rt: &impl Abort, alloc: Global, path: &CallPath, want: &str) {
    let mut text = Vec::new(alloc);
    text.push(b'>').expect(rt, "memory");
    path.write_text(&mut text).expect(rt, "memory");
    assert!(rt; &text[1..] == want.as_bytes());
}

// Two texts, the order of their paths, and whether the first is a prefix of the second.
const PAIRS: [(&str, &str, Ordering, bool); 9] = [
    ("a;b", "a;b", Ordering::Equal, true),
    ("a;b", "a!", Ordering::Less, false),
    ("a", "a!;b", Ordering::Less, false),
    ("a", "a;b", Ordering::Less, true),
    ("a;b", "a", Ordering::Greater, false),
    ("a;b", "a;c;b", Ordering::Less, false),
    (
        "0123456789abcdef;b",
        "0123456789abcdef!",
        Ordering::Less,
        false,
    ),
    (
        "0123456789abcdefg;a",
        "0123456789abcdefg",
        Ordering::Greater,
        false,
    ),
    (
        "é;0123456789abcdef",
        "é;0123456789abcdef;b",
        Ordering::Less,
        true,
    ),
];

#[test]
fn compares_by_frames(rt: HostRuntime) {
    for (text, other, order, begins) in &PAIRS {
        let path = path_of(&rt, rt.alloc(), text);
        let other = path_of(&rt, rt.alloc(), other);
        assert!(rt; path.cmp(&other) == *order);
        assert!(rt; path.is_prefix_of(&other) == *begins);
        assert_text(&rt, rt.alloc(), &path, text);
    }
}

// Two texts, a frame of the second, and how many first frames the first shares with those from there on.
const SHARED: [(&str, &str, usize, usize); 7] = [
    ("a;b", "a;b", 0, 2),
    ("a;b", "x;a;b;c", 1, 2),
    ("a;b", "a;bc", 0, 1),
    ("a;b", "x;a;c", 1, 1),
    ("a;b", "x;a", 1, 1),
    ("ab", "a;b", 0, 0),
    ("a;b", "a;b", 2, 0),
];

#[test]
fn counts_shared_frames(rt: HostRuntime) {
    for (text, other, from, want) in &SHARED {
        let path = path_of(&rt, rt.alloc(), text);
        let other = path_of(&rt, rt.alloc(), other);
        assert!(rt; *from <= other.len());
        assert!(rt; path.common(&other, *from) == *want);
    }
}

// A text, and that of the functions.
const FUNCTIONS: [(&str, &str); 6] = [
    ("main@12;f@007;g", "main;f;g"),
    ("é@123456789", "é"),
    ("f@1@2", "f@1"),
    ("f@", "f@"),
    ("@7;f@12x;poll@plt", "@7;f@12x;poll@plt"),
    ("f@1234567890;a", "f@1234567890;a"),
];

#[test]
fn cuts_lines(rt: HostRuntime) {
    for (text, want) in &FUNCTIONS {
        let path = path_of(&rt, rt.alloc(), text);
        let functions = path.functions().expect(&rt, "memory");
        assert_text(&rt, rt.alloc(), &functions, want);
    }
}

fn assert_behind(rt: &impl Abort, alloc: Global, path: &CallPath, count: usize, want: &str) {
    assert!(rt; count < path.len());
    let behind = path.behind(count).expect(rt, "memory");
    assert_text(rt, alloc, &behind, want);
}

#[test]
fn gives_the_frames_behind(rt: HostRuntime) {
    let path = path_of(&rt, rt.alloc(), "main;é;poll");
    assert_behind(&rt, rt.alloc(), &path, 0, "main;é;poll");
    assert_behind(&rt, rt.alloc(), &path, 2, "poll");
}

#[test]
fn cuts_and_appends(rt: HostRuntime) {
    let mut path = path_of(&rt, rt.alloc(), "main;a;b");
    path.cut(1);
    assert!(rt; path.len() < FRAME_LIMIT);
    path.push("read").expect(&rt, "memory");
    assert_text(&rt, rt.alloc(), &path, "main;read");
}

#[test]
fn is_sent(rt: HostRuntime) {
    let path = sent(path_of(&rt, rt.alloc(), "main"));
    assert_text(&rt, rt.alloc(), &path, "main");
    let builder = sent(PathBuilder::new(rt.alloc()));
    assert!(rt; builder.len() == 0);
}

#[test]
fn shows_frames(rt: HostRuntime) {
    let path = path_of(&rt, rt.alloc(), "main;é;poll");
    assert!(rt; path.len() == 3);
    assert!(rt; path.frame(1) == "é");
    assert!(rt; path.frame(2) == "poll");
}

#[test]
fn copies(rt: HostRuntime) {
    let path = path_of(&rt, rt.alloc(), "main;é;poll");
    assert!(rt; path.len() == 3);
    let prefix = path.prefix(2).expect(&rt, "memory");
    assert_text(&rt, rt.alloc(), &prefix, "main;é");
    let copy = path.copy().expect(&rt, "memory");
    assert_text(&rt, rt.alloc(), &copy, "main;é;poll");
}

fn put(rt: &impl Abort, builder: &mut PathBuilder, frame: &str)
    requires { IsTrue (is_good_frame frame.now) }
{
    assert!(rt; builder.len() < FRAME_LIMIT);
    builder.push(frame).expect(rt, "memory");
}

#[test]
fn builds(rt: HostRuntime) {
    let mut builder = PathBuilder::new(rt.alloc());
    put(&rt, &mut builder, "main");
    put(&rt, &mut builder, "é");
    builder.cut(5);
    assert!(rt; builder.len() == 2);
    builder.cut(1);
    put(&rt, &mut builder, "read");
    assert!(rt; builder.len() > 0);
    let path = builder.path().expect(&rt, "memory");
    assert_text(&rt, rt.alloc(), &path, "main;read");
    builder.cut(0);
    assert!(rt; builder.len() == 0);
}
