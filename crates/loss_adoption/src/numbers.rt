//! Ascending lists of numbers.

ghost use Rattle.std.specs.Prelude.{◌≡◌, OnErr, OnOk};
ghost use Rattle.overlay_setup.specs.NodeSets.{with_number, without_number};

use std::alloc::AllocError;

/// Adds a number to an ascending list, in its order; nothing where it is there already. After an error nothing has
/// changed.
pub fn insert_number(numbers: &mut Vec<u32>, number: u32) -> Result<(), AllocError>
    ensures ok { OnOk result (numbers.new.items ≡ with_number number numbers.old.items) }
    ensures unchanged { OnErr result (numbers.new.items ≡ numbers.old.items) }
{
    for i in 0..numbers.len() {
        if number == numbers[i] {
            return Ok(());
        }
        if number < numbers[i] {
            numbers.insert(i, number)?;
            return Ok(());
        }
    }
    numbers.push(number)?;
    Ok(())
}

/// Removes a number from a list.
pub fn remove_number(numbers: &mut Vec<u32>, number: u32)
    ensures { numbers.new.items ≡ without_number number numbers.old.items }
{
    numbers.retain(|n| *n != number);
}
