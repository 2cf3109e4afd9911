//! The text of classes.
ghost use Rattle.std.specs.List.{AllByRecursion, flat_map};
ghost use Rattle.std.specs.Prelude.{◌≡◌, ◌++◌, ◌<◌, OnOk, length, map};
ghost use Rattle.equiv_class.specs.ClassList.{HaveIndices, class_view, classes_view, path_of};
ghost use Rattle.equiv_class.specs.SeenPaths.{entries_view};
ghost use Rattle.front_end.specs.ClassText.{class_text as text_of_class, classes_text, path_line};

use call_path::CallPath;
use equiv_class::{Class, SeenPath, TreeClasses};
use std::alloc::AllocError;
use tree_text::write_number;

/// Appends the classes, one after another.
pub fn write_classes(classes: &TreeClasses<'_>, out: &mut Vec<u8>) -> Result<(), AllocError>
    requires indices { HaveIndices (length classes.now.seen.items) classes.now.all.items }
    ensures { OnOk result (out.new.items ≡ out.old.items ++ classes_text (classes_view classes.now)) }
{
    for class in &classes.all {
        write_class(&classes.seen, class, out)?;
    }
    Ok(())
}

// Appends a class of these paths.
fn write_class(seen: &[SeenPath<'_>], class: &Class, out: &mut Vec<u8>) -> Result<(), AllocError>
    requires indices { AllByRecursion (λ i. i < length seen.now) class.now.paths.items }
    ensures { OnOk result
        (out.new.items ≡ out.old.items ++ text_of_class (class_view (entries_view seen.now) class.now)) }
{
    out.extend_from_slice(b"class ")?;
    class.ranks.write_text(out)?;
    out.extend_from_slice(b" paths ")?;
    write_number(class.paths.as_slice().len(), out)?;
    out.push(b'\n')?;
    write_paths(seen, &class.paths, out)
}

// Appends the lines of the paths that have these indices.
fn write_paths(seen: &[SeenPath<'_>], indices: &[u32], out: &mut Vec<u8>) -> Result<(), AllocError>
    requires indices { AllByRecursion (λ i. i < length seen.now) indices.now }
    ensures { OnOk result
        (out.new.items
        ≡ out.old.items ++ flat_map path_line (map (path_of (entries_view seen.now)) indices.now)) }
{
    for index in indices {
        write_path(&seen[*index as usize].path, out)?;
    }
    Ok(())
}

fn write_path(path: &CallPath, out: &mut Vec<u8>) -> Result<(), AllocError>
    ensures { OnOk result (out.new.items ≡ out.old.items ++ path_line path.now) }
{
    out.extend_from_slice(b"  ")?;
    path.write_text(out)?;
    out.push(b'\n')?;
    Ok(())
}
