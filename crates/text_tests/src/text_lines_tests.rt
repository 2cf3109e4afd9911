//! The ends of lines, blanks and numbers, by texts from outside.

use std::process::Abort;
use text_lines::{
    after_blanks, cut_number, cut_word, next_line, next_text_line, next_word, number_in,
    says_nothing,
};

// What a text was cut into, and what was wanted of it.
fn assert_parts(rt: &impl Abort, found: Option<(&[u8], &[u8])>, want: Option<(&str, &str)>) {
    match (found, want) {
        (Some((front, rest)), Some((want_front, want_rest))) => {
            assert!(rt; front == want_front.as_bytes());
            assert!(rt; rest == want_rest.as_bytes(), "after {want_front:?}");
        }
        (found, want) => assert!(rt; found.is_none() && want.is_none(), "{want:?}"),
    }
}

// A text, its first line, and what is left after it.
const LINES: [(&str, Option<(&str, &str)>); 8] = [
    ("", None),
    ("\n", Some(("", ""))),
    ("\r", Some(("", ""))),
    ("\r\n\n", Some(("", "\n"))),
    ("a\r\r\nb", Some(("a\r", "b"))),
    ("a\rb\n", Some(("a\rb", ""))),
    ("a b\r", Some(("a b", ""))),
    ("a\n\n", Some(("a", "\n"))),
];

#[test]
fn cuts_lines(rt: HostRuntime) {
    for (text, want) in &LINES {
        assert_parts(&rt, next_line(text.as_bytes()), *want);
    }
}

#[test]
fn cuts_lines_of_text(rt: HostRuntime) {
    for (text, want) in &LINES {
        let line = next_text_line(text).map(|parts| (parts.0.as_bytes(), parts.1.as_bytes()));
        assert_parts(&rt, line, *want);
    }
}

// A line, its first word, and what is left after it.
const WORDS: [(&str, Option<(&str, &str)>); 7] = [
    ("", None),
    (" \t ", None),
    ("stack", Some(("stack", ""))),
    ("\t stack 0", Some(("stack", " 0"))),
    ("stack\t\t0 1", Some(("stack", "\t\t0 1"))),
    ("a\u{b}b\u{a0} c", Some(("a\u{b}b\u{a0}", " c"))),
    ("a\r b", Some(("a\r", " b"))),
];

#[test]
fn cuts_words(rt: HostRuntime) {
    for (line, want) in &WORDS {
        assert_parts(&rt, next_word(line.as_bytes()), *want);
    }
}

// A line, the word that it begins with, and what is left after the blank behind it.
const CUTS: [(&str, Option<(&str, &str)>); 7] = [
    ("", None),
    (" stack", None),
    ("\tstack 0", None),
    ("stack", None),
    ("stack ", Some(("stack", ""))),
    ("0  m", Some(("0", " m"))),
    ("a\r\tb c", Some(("a\r", "b c"))),
];

#[test]
fn cuts_the_word_in_front(rt: HostRuntime) {
    for (line, want) in &CUTS {
        assert_parts(&rt, cut_word(line.as_bytes()), *want);
    }
}

// A line, the number below 1,000 that it begins with, and what is left after the blank behind it.
const CUT_NUMBERS: [(&str, Option<(u32, &str)>); 9] = [
    ("", None),
    ("7", None),
    (" 7 a", None),
    ("7-8 a", None),
    ("1000 a", None),
    ("18446744073709551617 a", None),
    ("999 ", Some((999, ""))),
    ("0007\ta b", Some((7, "a b"))),
    ("0  a", Some((0, " a"))),
];

#[test]
fn cuts_the_number_in_front(rt: HostRuntime) {
    for (line, want) in &CUT_NUMBERS {
        match (cut_number(line.as_bytes(), 1_000), want) {
            (Some((number, rest)), Some((want_number, want_rest))) => {
                assert!(rt;
                    number == *want_number && rest == want_rest.as_bytes(),
                    "{line:?}"
                );
            }
            (found, want) => assert!(rt; found.is_none() && want.is_none(), "{line:?}"),
        }
    }
}

const SILENT: [(&str, bool); 7] = [
    ("", true),
    (" \t", true),
    ("#", true),
    ("# a", true),
    (" # a", false),
    ("a # b", false),
    ("\r", false),
];

#[test]
fn knows_lines_that_say_nothing(rt: HostRuntime) {
    for (line, silent) in &SILENT {
        assert!(rt; says_nothing(line.as_bytes()) == *silent, "{line:?}");
    }
    assert!(rt; after_blanks(b" \t a ") == b"a ".as_slice());
}

const NUMBERS: [(&str, Option<u32>); 9] = [
    ("", None),
    ("+1", None),
    ("-0", None),
    ("1x", None),
    ("0", Some(0)),
    (
        "000000000000000000000000000000000000000000000000000000000000007",
        Some(7),
    ),
    ("65535", Some(65_535)),
    ("65536", Some(65_536)),
    (
        "999999999999999999999999999999999999999999999999999999999999999",
        Some(65_536),
    ),
];

#[test]
fn reads_numbers_of_any_length(rt: HostRuntime) {
    for (word, number) in &NUMBERS {
        assert!(rt; number_in(word.as_bytes(), 65_536) == *number, "{word:?}");
    }
}
