//! The kin that a node begins with.

ghost use Rattle.std.specs.Prelude.{◌≡◌, ◌<◌, [], IfOk};
ghost use Rattle.stat_plan.specs.Machine.Kin.{children_of, is_parent, nearest};
ghost use Rattle.stat_plan.specs.Plans.{ancestors, nodes};

use stat_plan::Plan;
use std::alloc::{AllocError, Global};

/// A node's parent: the nearest of its ancestors.
pub fn parent_of(plan: &Plan, n: u32) -> Option<u32>
    requires { n < nodes plan.now }
    ensures { result ≡ nearest (ancestors plan.now n) [] }
{
    plan.ancestors(n).first().copied()
}

/// The first of these ancestors that isn't among the lost nodes.
pub fn nearest(above: &[u32], lost: &[u32]) -> Option<u32>
    ensures { result ≡ nearest above.now lost.now }
{
    for a in above {
        if !lost.contains(a) {
            return Some(*a);
        }
    }
    None
}

/// Whether a node is the parent.
pub fn is_parent(parent: Option<u32>, n: u32) -> bool
    ensures { result ≡ is_parent parent n }
{
    match parent {
        Some(parent) => parent == n,
        None => false,
    }
}

/// A node's children, ascending. A daemon has none, and they are not looked for.
pub fn children_of(alloc: Global, plan: &Plan, n: u32) -> Result<Vec<u32>, AllocError>
    requires { n < nodes plan.now }
    ensures { IfOk result (λ children. children.items ≡ children_of plan.now n) }
{
    let mut children = Vec::new(alloc);
    if plan.is_daemon(n) {
        return Ok(children);
    }
    for c in 0..plan.nodes() {
        if is_parent(parent_of(plan, c), n) {
            children.push(c)?;
        }
    }
    Ok(children)
}
