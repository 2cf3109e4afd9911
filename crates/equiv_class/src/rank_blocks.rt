//! Blocks of covered ranks that were seen in the same paths.

ghost use Rattle.std.specs.Prelude.{◌≡◌, ℕ, ◌<◌, ◌≤◌, true, [], length, get_or, map, nat_eq, IfOk, OnOk};
ghost use Rattle.std.specs.List.{AllByRecursion};
ghost use Rattle.rank_set.specs.Ranks.{has, those};
ghost use Rattle.call_path.specs.Pairs.{Pairs};
ghost use Rattle.equiv_class.specs.Classes.{classes_of};
ghost use Rattle.equiv_class.specs.SeenPaths.{Lists, entries_view};
ghost use Rattle.equiv_class.specs.States.{HasEntries, states_in_order};
ghost use Rattle.equiv_class.specs.StateBlocks.{HasStates, blocks_view, number_of, with_block, with_number, with_run};

use crate::SeenPath;
use crate::states::{Origin, count_states, end_of_all, part_by_paths};
use rank_set::RankSet;
use rank_table::RankTable;
use std::alloc::{AllocError, Global};

/// The covered ranks of a state: they were seen in the same paths.
#[derive(Drop)]
pub(crate) struct Block {
    pub(crate) state: u32,
    pub(crate) ranks: RankSet,
}

/// Covered ranks in blocks.
#[derive(Drop)]
pub(crate) struct Blocks {
    // The origin of each state.
    pub(crate) origins: Vec<Origin>,
    // A block for each state that has covered ranks, by their least ranks.
    pub(crate) all: Vec<Block>,
}

// The blocks of covered ranks, where so many paths were seen.
pub(crate) fn find_blocks(
    alloc: Global,
    seen: &[SeenPath<'_>],
    count: u32,
    covered: &RankSet,
) -> Result<Blocks, AllocError>
    requires { count ≡ length seen.now }
    ensures states { IfOk result (λ blocks. HasStates blocks) }
    ensures classes { IfOk result
        (λ blocks. (P : Pairs) → Lists P (entries_view seen.now)
        → blocks_view (entries_view seen.now) blocks ≡ classes_of P covered.now) }
{
    let mut states = RankTable::new(alloc, end_of_all(seen, covered))?;
    let mut next = vec![in alloc; 0; 1]?;
    let mut origins = vec![in alloc; Origin { from: 0, path: 0 }; 1]?;
    part_by_paths(seen, count, &mut states, &mut next, &mut origins)?;
    let end = count_states(next.as_slice())?;
    let all = ranks_by_state(alloc, covered, &states, end)?;
    Ok(Blocks { origins, all })
}

// The covered ranks of each state before `end` that has any, by their least ranks.
fn ranks_by_state(
    alloc: Global,
    covered: &RankSet,
    states: &RankTable,
    end: u32,
) -> Result<Vec<Block>, AllocError>
    requires entries { HasEntries states.now covered.now }
    requires below_end { (r : ℕ) → get_or states.now r 0 < end }
    ensures ranks { IfOk result (λ blocks. AllByRecursion
        (λ block. block.ranks ≡ those (λ s. nat_eq block.state (get_or states.now s 0)) covered.now) blocks.items) }
    ensures order { IfOk result
        (λ blocks. map (λ block. block.state) blocks.items ≡ states_in_order states.now covered.now) }
{
    let mut numbers = vec![in alloc; 0; end as usize]?;
    let mut blocks = Vec::new(alloc);
    let mut from = 0;
    let mut hint = 0;
    while let Some(run) = covered.next_run_near(from, &mut hint) {
        from = run.first;
        while from <= run.last {
            let own = states.run_at(from, run.last + 1);
            let number = block_number(own.number, numbers.as_mut_slice(), &mut blocks)?;
            put(blocks.as_mut_slice(), number, from, own.end - 1)?;
            from = own.end;
        }
    }
    Ok(blocks)
}

// The number of the block of a state, from 1. It gets an empty one where it has none: its number is 0 so far.
fn block_number(state: u32, numbers: &mut [u32], blocks: &mut Vec<Block>) -> Result<u32, AllocError>
    requires { state < length numbers.old }
    ensures number { IfOk result (λ number. number ≡ number_of state numbers.old blocks.old.items) }
    ensures numbers { OnOk result (numbers.new ≡ with_number state numbers.old blocks.old.items) }
    ensures blocks { OnOk result (blocks.new.items ≡ with_block state numbers.old blocks.old.items) }
    ensures length { length numbers.new ≡ length numbers.old }
{
    let known = numbers[state as usize];
    if known > 0 {
        return Ok(known);
    }
    let ranks = RankSet::new(*blocks.allocator());
    blocks.push(Block { state, ranks })?;
    let number = count_blocks(blocks.as_slice())?;
    numbers[state as usize] = number;
    Ok(number)
}

// How many blocks there are.
fn count_blocks(blocks: &[Block]) -> Result<u32, AllocError>
    ensures { IfOk result (λ count. count ≡ length blocks.now) }
{
    match u32::try_from(blocks.len()) {
        Ok(count) => Ok(count),
        Err(_) => Err(AllocError),
    }
}

// Adds the ranks from the first to the last to the block that has a number, from 1.
fn put(blocks: &mut [Block], number: u32, first: u32, last: u32) -> Result<(), AllocError>
    requires some { 0 < number }
    requires within { number ≤ length blocks.old }
    ensures { OnOk result (blocks.new ≡ with_run number first last blocks.old) }
{
    match blocks[(number - 1) as usize].ranks.insert_run(first, last) {
        Ok(()) => Ok(()),
        Err(_) => Err(AllocError),
    }
}
