//! Paths in their order.

ghost use Rattle.std.specs.Prelude.{◌≡◌, IfOk, length};
ghost use Rattle.stat_plan.specs.PathOrder.{IsOrderOf};

use call_path::CallPath;
use std::alloc::{AllocError, Global};

/// The numbers of some paths in the order of the paths.
pub fn in_order(alloc: Global, paths: &[CallPath]) -> Result<Vec<usize>, AllocError>
    ensures { IfOk result (λ numbers. IsOrderOf paths.now numbers.items) }
{
    let mut keyed = Vec::with_capacity(alloc, paths.len())?;
    for (number, path) in paths.iter().enumerate() {
        keyed.push((path, number))?;
    }
    keyed.sort_by(|one, other| one.0.cmp(other.0))?;
    let mut numbers = Vec::with_capacity(alloc, keyed.len())?;
    for entry in &keyed {
        numbers.push(entry.1)?;
    }
    Ok(numbers)
}

/// By path number, the place of the path in the order of the paths, which is given.
pub fn path_places(
    alloc: Global,
    paths: &[CallPath],
    order: &[usize],
) -> Result<Vec<usize>, AllocError>
    requires { IsOrderOf paths.now order.now }
    ensures { IfOk result (λ places. length places.items ≡ length paths.now) }
{
    let mut places = vec![in alloc; 0; paths.len()]?;
    for (place, number) in order.iter().enumerate() {
        places[*number] = place;
    }
    Ok(places)
}
