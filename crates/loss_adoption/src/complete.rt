//! When a wave is complete at a node.

ghost use Rattle.std.specs.Prelude.{◌≡◌, ◌<◌};
ghost use Rattle.stat_plan.specs.Machine.Kin.{complete};
ghost use Rattle.stat_plan.specs.Plans.{is_within, nodes};
ghost use Rattle.loss_adoption.specs.Settled.{is_settled};

use rank_set::RankSet;
use stat_plan::Plan;

// Whether a daemon is the node or its descendant.
fn is_within(plan: &Plan, d: u32, n: u32) -> bool
    requires { d < nodes plan.now }
    ensures { result ≡ is_within plan.now d n }
{
    d == n || plan.is_under(d, n)
}

// Whether nothing more comes of a daemon: it isn't the node or its descendant, its ranks are covered, or it is lost.
fn is_settled(plan: &Plan, n: u32, d: u32, lost: &[u32], covered: &RankSet) -> bool
    requires { d < nodes plan.now }
    ensures { result ≡ is_settled plan.now n lost.now covered.now d }
{
    if !is_within(plan, d, n) {
        return true;
    }
    plan.ranks(d).is_subset(covered) || lost.contains(&d)
}

/// Whether each daemon of the stream that is the node or its descendant has its ranks among those that are covered, or
/// is among the lost nodes.
pub fn is_complete(plan: &Plan, n: u32, lost: &[u32], s: u8, covered: &RankSet) -> bool
    requires { n < nodes plan.now }
    ensures { result ≡ complete plan.now n lost.now s covered.now }
{
    let Some(stream) = plan.stream(s) else {
        return true;
    };
    if plan.expected(n, s).is_subset(covered) {
        return true;
    }
    if lost.is_empty() {
        return false;
    }
    plan.invariant();
    for d in stream.daemons() {
        if !is_settled(plan, n, *d, lost, covered) {
            return false;
        }
    }
    true
}
