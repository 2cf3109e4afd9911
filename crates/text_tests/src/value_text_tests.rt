//! What no clause says: texts as they are written, and that each call succeeds with ample memory.

use crate::plans::plan_of;
use stat_plan::Plan;
use std::alloc::Global;
use std::process::Abort;
use text_lines::{Quantity, Reason, TextError};
use value_text::{Values, read_values};

// The ranks 0, 1 and 70 to 199 are on one daemon, and 2 and 3 on another.
fn small_plan(rt: &impl Abort, alloc: Global) -> Plan {
    plan_of(
        rt,
        alloc,
        b"fe:0 => a:0 b:0 ;",
        b"daemon a:0 0-1,70-199\ndaemon b:0 2-3\n",
        b"stream 0 wait-for-all waves 1 samples 1 on all\n",
    )
}

// A text, and what number each of some ranks has.
const NUMBERS: [(&[u8], &[(u32, Option<i64>)]); 7] = [
    // a rank of a line has its number
    (
        b"value 0 5\r\n# value 3 9\n \t\n\tvalue  1-2,100-130 -3 \nvalue 131 7",
        &[
            (0, Some(5)),
            (1, Some(-3)),
            (2, Some(-3)),
            (130, Some(-3)),
            (131, Some(7)),
        ],
    ),
    // other ranks have none
    (
        b"value 1-2,100-130 -3\n",
        &[
            (0, None),
            (99, None),
            (131, None),
            (200, None),
            (u32::MAX, None),
        ],
    ),
    // numbers at their limits
    (
        b"value 0 -1000000000000\nvalue 1 1000000000000\nvalue 2 -0\nvalue 3 0000000000007",
        &[
            (0, Some(-1_000_000_000_000)),
            (1, Some(1_000_000_000_000)),
            (2, Some(0)),
            (3, Some(7)),
        ],
    ),
    // an empty text
    (b"", &[(0, None)]),
    // runs
    (
        b"value 0-1 5\nvalue 2-2 -3\nvalue 70-199 7\n",
        &[(0, Some(5)), (1, Some(5)), (2, Some(-3)), (3, None)],
    ),
    // a long run up to its last rank
    (
        b"value 71-198 7\nvalue 070-070 8\nvalue 199 9\n",
        &[
            (70, Some(8)),
            (71, Some(7)),
            (128, Some(7)),
            (198, Some(7)),
            (199, Some(9)),
        ],
    ),
    // runs in other forms
    (
        b"value 02-3 4\r\nvalue  70-199 7\nvalue 0-1 5",
        &[
            (1, Some(5)),
            (2, Some(4)),
            (3, Some(4)),
            (69, None),
            (199, Some(7)),
        ],
    ),
];

fn assert_numbers(rt: &impl Abort, values: &Values, numbers: &[(u32, Option<i64>)]) {
    for (rank, number) in numbers {
        assert!(rt; values.number(*rank) == *number, "{rank}");
    }
}

#[test]
fn gives_each_rank_of_a_line_its_number(rt: HostRuntime) {
    let plan = small_plan(&rt, rt.alloc());
    for (text, numbers) in &NUMBERS {
        let values = read_values(rt.alloc(), text, &plan).expect(&rt, "values");
        assert_numbers(&rt, &values, numbers);
    }
}

// A text, and the line and reason of its first error.
const BAD: [(&[u8], u64, Reason); 30] = [
    (b"\n\xff", 2, Reason::NotUtf8),
    (b"value 0 1 \xff", 1, Reason::NotUtf8),
    (b"value", 1, Reason::BadDirective),
    (b"value x", 1, Reason::BadDirective),
    (b"value 0 1 2", 1, Reason::BadDirective),
    (b"Value 0 1", 1, Reason::BadDirective),
    (b"value 0, x", 1, Reason::BadRanks),
    (b"value 1-0 x", 1, Reason::BadRanks),
    (b"value 3-4 x", 1, Reason::Unplaced),
    (b"value 0 1\nvalue 0,4 x", 2, Reason::Unplaced),
    (b"value 70-199 1\nvalue 100 x", 2, Reason::ValueTwice),
    (b"value 0 1\n#\nvalue 0 1", 3, Reason::ValueTwice),
    (b"value 0 -", 1, Reason::BadValue),
    (b"value 0 +1", 1, Reason::BadValue),
    (b"value 0 00000000000001", 1, Reason::BadValue),
    (b"value 0 -1000000000001", 1, Reason::BadValue),
    // runs
    (b"value 3-4 1\n", 1, Reason::Unplaced),
    (b"value 1-70 1\n", 1, Reason::Unplaced),
    (b"value 4-5 1\n", 1, Reason::Unplaced),
    (b"value 69-199 1\n", 1, Reason::Unplaced),
    (b"value 70-200 1\n", 1, Reason::Unplaced),
    (b"value 3 1\nvalue 2-4 1\n", 2, Reason::Unplaced),
    (b"value 1 1\nvalue 0-1 1\n", 2, Reason::ValueTwice),
    (b"value 0-1 1\nvalue 1-3 1\n", 2, Reason::ValueTwice),
    (b"value 199 1\nvalue 70-199 2\n", 2, Reason::ValueTwice),
    (b"value 70-199 1\nvalue 130 2\n", 2, Reason::ValueTwice),
    (b"value 1-0 1\n", 1, Reason::BadRanks),
    (b"value 0- 1\n", 1, Reason::BadRanks),
    (b"value 0-1-2 1\n", 1, Reason::BadRanks),
    (b"value 0-1 +1\n", 1, Reason::BadValue),
];

fn is_refused(alloc: Global, text: &[u8], plan: &Plan, want: TextError) -> bool {
    read_values(alloc, text, plan).err() == Some(want)
}

#[test]
fn refuses_texts_at_the_first_error(rt: HostRuntime) {
    let plan = small_plan(&rt, rt.alloc());
    for (text, line, reason) in &BAD {
        let want = TextError::Bad {
            line: *line,
            reason: *reason,
        };
        assert!(rt; is_refused(rt.alloc(), text, &plan, want), "{reason:?}");
    }
}

#[test]
fn refuses_ranks_over_the_limit(rt: HostRuntime) {
    let plan = small_plan(&rt, rt.alloc());
    let want = TextError::Over {
        line: 1,
        what: Quantity::Ranks,
        limit: 1_048_576,
    };
    assert!(rt; is_refused(rt.alloc(), b"value 0-1048576 1\n", &plan, want));
    assert!(rt; is_refused(rt.alloc(), b"value 4,1048576 x", &plan, want));
}
