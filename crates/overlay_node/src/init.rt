//! What a node holds that has done no event yet.

ghost use Rattle.std.specs.Prelude.{◌≡◌, ◌<◌, ◌++◌, IfOk, OnOk};
ghost use Rattle.stat_plan.specs.Plans.{Plan, nodes, waves_at};
ghost use Rattle.merge_filter.specs.Contributions.{HasWave};
ghost use Rattle.wave_resend.specs.Books.{first_waves};
ghost use Rattle.overlay_node.specs.NodeViews.{held_keys};
ghost use Rattle.overlay_node.specs.Starts.{AreFresh, HasWaves, IsFresh};

use crate::held::HeldWave;
use merge_filter::Contribution;
use prefix_tree::PrefixTree;
use stat_plan::Plan;
use std::alloc::{AllocError, Global};

// What is held of a wave of which nothing has come in yet.
fn fresh_wave<T: PrefixTree>(alloc: Global, s: u8, w: u8) -> HeldWave<T>
    ensures stream { result.stream ≡ s }
    ensures wave { result.wave ≡ w }
    ensures fresh { (p : Plan) → HasWave p s w → IsFresh p result }
{
    HeldWave {
        stream: s,
        wave: w,
        part: Some(Contribution::none(alloc, s, w)),
        release_count: 0,
    }
}

// Adds the waves of a stream.
fn add_waves<T: PrefixTree>(
    alloc: Global,
    held: &mut Vec<HeldWave<T>>,
    s: u8,
    waves: u8,
) -> Result<(), AllocError>
    ensures keys { OnOk result (held_keys held.new.items ≡ held_keys held.old.items ++ first_waves s waves) }
    ensures fresh { OnOk result ((p : Plan) → HasWaves p s waves
        → AreFresh p held.old.items → AreFresh p held.new.items) }
{
    for w in 0..waves {
        held.push(fresh_wave(alloc, s, w))?;
    }
    Ok(())
}

/// One for each wave of each stream that the node serves, by stream and wave. Nothing has come in yet.
pub fn fresh_waves<T: PrefixTree>(
    alloc: Global,
    plan: &Plan,
    n: u32,
) -> Result<Vec<HeldWave<T>>, AllocError>
    requires { n < nodes plan.now }
    ensures keys { IfOk result (λ held. held_keys held.items ≡ waves_at plan.now n) }
    ensures fresh { IfOk result (λ held. AreFresh plan.now held.items) }
{
    let mut held = Vec::new(alloc);
    for stream in plan.streams() {
        let s = stream.number();
        if plan.serves(n, s) {
            add_waves(alloc, &mut held, s, stream.waves())?;
        }
    }
    Ok(held)
}
