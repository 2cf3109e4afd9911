//! Each node's ancestors.

ghost use Rattle.std.specs.Prelude.{◌≡◌, ◌<◌, IfOk, length};
ghost use Rattle.overlay_setup.specs.Tables.{rows_view, ancestors_table};
ghost use Rattle.overlay_setup.specs.Trees.{climb};

use crate::topology::Topology;
use std::alloc::{AllocError, Global};

// A node's ancestors, nearest first.
fn ancestors_of(alloc: Global, topology: &Topology, n: u32) -> Result<Vec<u32>, AllocError>
    requires { n < length topology.now.parents }
    ensures { IfOk result (λ above. above.items ≡ climb topology.now.parents (length topology.now.parents) n) }
{
    topology.invariant();
    let mut above = Vec::new(alloc);
    let mut at = n;
    for _ in 0..topology.nodes() {
        let Some(parent) = topology.parent(at) else {
            break;
        };
        above.push(parent)?;
        at = parent;
    }
    Ok(above)
}

/// Each node's ancestors, nearest first, by node number.
pub fn ancestors_table(alloc: Global, topology: &Topology) -> Result<Vec<Vec<u32>>, AllocError>
    ensures { IfOk result (λ table. rows_view table.items ≡ ancestors_table topology.now.parents) }
{
    let mut table = Vec::new(alloc);
    for n in 0..topology.nodes() {
        table.push(ancestors_of(alloc, topology, n)?)?;
    }
    Ok(table)
}
