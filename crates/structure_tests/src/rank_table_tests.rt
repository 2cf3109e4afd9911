// Tables against a plain list of numbers: runs within a word, over its ends, of whole words, and over numbers of
// others.
use rank_table::{NumberRun, RankTable};
use std::process::Abort;

// More than four words, and the last is not whole.
const END: u32 = 300;

// The runs that get a number, in order: their first ranks, the ranks behind them, and the numbers.
const RUNS: [(u32, u32, u32); 12] = [
    (10, 20, 1),
    (60, 70, 2),
    (64, 128, 3),
    (0, 300, 4),
    (63, 64, 5),
    (64, 65, 6),
    (100, 260, 7),
    (128, 192, 4),
    (299, 300, 8),
    (256, 300, 9),
    (150, 150, 1),
    (0, 256, 0),
];

// The run that a rank begins, by the plain list.
fn plain_run(numbers: &[u32; END as usize], first: u32) -> NumberRun {
    let number = numbers.get(first as usize).copied().unwrap_or(0);
    for rank in first..END {
        if numbers.get(rank as usize).copied() != Some(number) {
            return NumberRun { number, end: rank };
        }
    }
    NumberRun { number, end: END }
}

// Compares each number of a table, and the run that each rank begins.
fn assert_numbers(rt: &impl Abort, table: &RankTable, numbers: &[u32; END as usize]) {
    assert!(rt; table.len() == END);
    for rank in 0..END {
        assert!(rt; table.number(rank) == numbers[rank as usize]);
        assert!(rt; table.run_at(rank, END) == plain_run(numbers, rank));
    }
}

#[test]
fn holds_what_a_plain_list_holds(rt: HostRuntime) {
    let mut table = RankTable::new(rt.alloc(), END).expect(&rt, "memory");
    let mut numbers = [0; END as usize];
    assert_numbers(&rt, &table, &numbers);
    for (first, end, number) in &RUNS {
        assert!(rt; first <= end && *end <= table.len() && *end <= END);
        table.set_run(*first, *end, *number).expect(&rt, "memory");
        for rank in *first..*end {
            numbers[rank as usize] = *number;
        }
        assert_numbers(&rt, &table, &numbers);
    }
}

// A rank, where to end at the latest, and the number and the end of the run that it begins.
const CUT_RUNS: [(u32, u32, u32, u32); 3] = [
    (20, 180, 7, 150),
    (20, 100, 7, 100),
    (150, 180, 0, 180),
];

#[test]
fn ends_a_run_where_it_is_told(rt: HostRuntime) {
    let mut table = RankTable::new(rt.alloc(), 200).expect(&rt, "memory");
    table.set_run(10, 150, 7).expect(&rt, "memory");
    for (rank, end, number, found) in &CUT_RUNS {
        let run = NumberRun {
            number: *number,
            end: *found,
        };
        assert!(rt; table.run_at(*rank, *end) == run);
    }
}
