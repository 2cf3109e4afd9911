//! The text of a rank set, as `4:[0-2,7]`.

ghost use Rattle.std.specs.Prelude.{◌≡◌, ◌<◌, ◌≤◌, ◌+◌, ◌++◌, [], ◌∷◌, cond, length, drop, OnOk, OnErr};
ghost use Rattle.std.specs.Fmt.{decimal};
ghost use Rattle.rank_set.specs.Ranks.{in_order};
ghost use Rattle.rank_set.specs.Words.{ranks_in};
ghost use Rattle.rank_set.specs.Runs.{runs_of, ranks_of_runs, AreRuns, run_pair, run_pairs};
ghost use Rattle.rank_set.specs.Text.{comma, run_text, runs_text, text_of, BeginsWith};

use crate::sorted_runs::count;
use crate::words::{next_run, ones};
use crate::{RANK_LIMIT, Run, WORD_LIMIT};
use itoa::{Buffer, write_digits};
use std::alloc::AllocError;

// Appends the number's decimal digits. On failure `out` is unchanged.
fn write_number(n: u32, out: &mut Vec<u8>) -> Result<(), AllocError>
    ensures ok { OnOk result (out.new.items ≡ out.old.items ++ decimal n) }
    ensures err { OnErr result (out.new.items ≡ out.old.items) }
{
    let mut digits = Buffer::new();
    out.extend_from_slice(digits.format(n).as_bytes())?;
    Ok(())
}

// The most bytes of a run's text behind a comma: a rank has seven digits at most.
const RUN_BYTES: usize = 16;

// Appends a run's text, a number, or `a-b` for two ranks or more, behind a comma where it follows others. It is written
// from its end.
#[inline(always)]
fn write_run(run: Run, follows: bool, out: &mut Vec<u8>) -> Result<(), AllocError>
    requires { (run.first ≤ run.last) × (run.last < RANK_LIMIT) }
    ensures ok { OnOk result (out.new.items
        ≡ out.old.items ++ (cond follows (comma ∷ []) [] ++ run_text (run_pair run))) }
    ensures kept { BeginsWith out.new.items out.old.items }
{
    let mut text = [0; RUN_BYTES];
    let mut start = write_run_before(run.first, run.last, &mut text);
    if follows {
        start -= 1;
        text[start] = b',';
    }
    out.extend_from_slice(&text[start..])?;
    Ok(())
}

// Writes a run's text at the end of a buffer, and returns where it starts.
#[inline(always)]
fn write_run_before(first: u32, last: u32, text: &mut [u8; RUN_BYTES]) -> usize
    requires { (first ≤ last) × (last < RANK_LIMIT) }
    ensures within { (1 ≤ result) × (result ≤ RUN_BYTES) }
    ensures text { drop result text.new ≡ run_text (first, last) }
{
    let start = write_digits(u64::from(last), text, RUN_BYTES);
    if first == last {
        return start;
    }
    text[start - 1] = b'-';
    write_digits(u64::from(first), text, start - 1)
}

// Appends the longest runs of the words' ranks, parted by commas.
fn write_runs(offset: u32, words: &[u64], out: &mut Vec<u8>) -> Result<(), AllocError>
    requires { offset + length words.now ≤ WORD_LIMIT }
    ensures ok { OnOk result
        (out.new.items ≡ out.old.items ++ runs_text (runs_of (in_order (ranks_in offset words.now)))) }
    ensures kept { BeginsWith out.new.items out.old.items }
{
    let mut from = 0;
    while let Some(run) = next_run(offset, words, from) {
        write_run(run, from > 0, out)?;
        from = run.last + 1;
    }
    Ok(())
}

// Appends the text of the words' ranks. On failure a part of it may stand behind what `out` had.
pub(crate) fn write_ranks(offset: u32, words: &[u64], out: &mut Vec<u8>) -> Result<(), AllocError>
    requires { offset + length words.now ≤ WORD_LIMIT }
    ensures ok { OnOk result (out.new.items ≡ out.old.items ++ text_of (ranks_in offset words.now)) }
    ensures kept { BeginsWith out.new.items out.old.items }
{
    write_number(ones(words), out)?;
    out.extend_from_slice(b":[")?;
    write_runs(offset, words, out)?;
    out.push(b']')?;
    Ok(())
}

// Appends runs, parted by commas.
fn write_each_run(runs: &[Run], out: &mut Vec<u8>) -> Result<(), AllocError>
    requires { AreRuns 0 (run_pairs runs.now) }
    ensures ok { OnOk result (out.new.items ≡ out.old.items ++ runs_text (run_pairs runs.now)) }
    ensures kept { BeginsWith out.new.items out.old.items }
{
    let mut follows = false;
    for run in runs {
        write_run(*run, follows, out)?;
        follows = true;
    }
    Ok(())
}

// Appends the text of the ranks of runs. On failure a part of it may stand behind what `out` had.
pub(crate) fn write_run_list(runs: &[Run], out: &mut Vec<u8>) -> Result<(), AllocError>
    requires { AreRuns 0 (run_pairs runs.now) }
    ensures ok { OnOk result (out.new.items ≡ out.old.items ++ text_of (ranks_of_runs (run_pairs runs.now))) }
    ensures kept { BeginsWith out.new.items out.old.items }
{
    write_number(count(runs), out)?;
    out.extend_from_slice(b":[")?;
    write_each_run(runs, out)?;
    out.push(b']')?;
    Ok(())
}
