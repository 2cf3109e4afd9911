//! Trees and classes as JSON.
ghost use Rattle.std.specs.List.{AllByRecursion};
ghost use Rattle.std.specs.Prelude.{◌≡◌, ◌++◌, ◌<◌, codes, length, map, OnOk};
ghost use Rattle.serde_json.specs.Data.{string};
ghost use Rattle.rank_set.specs.Text.{text_of};
ghost use Rattle.call_path.specs.Path.{path_text as text_of_path};
ghost use Rattle.equiv_class.specs.ClassList.{HaveIndices, class_view, classes_view, path_of};
ghost use Rattle.equiv_class.specs.SeenPaths.{entries_view};
ghost use Rattle.front_end.specs.JsonValues.{class_data, classes_data, row_of, tree_data};
ghost use Rattle.json_text.specs.Values.{list_of, ranks_data};
ghost use Rattle.json_text.specs.Tokens.{member_tokens, value_tokens};

use equiv_class::{Class, SeenPath, TreeClasses};
use json_text::{JsonText, path_text, ranks_text};
use prefix_tree::{PrefixTree, Row};
use std::alloc::AllocError;

/// Appends the list of the tree's rows. The text of the last label is kept, as in the report's text.
pub fn write_tree<T: PrefixTree>(tree: &T, out: &mut JsonText) -> Result<(), AllocError>
    ensures { OnOk result (out.new ≡ out.old ++ value_tokens (tree_data (T.tree tree.now))) }
{
    let root = tree.row(0);
    let mut label = root.label;
    let mut label_text = ranks_text(out.allocator(), label)?;
    out.begin_list()?;
    write_row(&root, label_text.as_str(), out)?;
    let mut at = tree.cursor(out.allocator())?;
    while let Some(row) = tree.next_row(&mut at) {
        if !row.label.equals(label) {
            label = row.label;
            label_text = ranks_text(out.allocator(), label)?;
        }
        write_row(&row, label_text.as_str(), out)?;
    }
    out.end_list()
}

// Appends the object of a row, the text of whose label is at hand.
fn write_row(row: &Row<'_>, label: &str, out: &mut JsonText) -> Result<(), AllocError>
    requires { label.now ≡ text_of row.now.label.now }
    ensures { OnOk result
        (out.new
        ≡ out.old ++ value_tokens (row_of row.now.depth row.now.label.now row.now.ends.now row.now.frame.now)) }
{
    out.begin_object()?;
    out.count("depth", row.depth as u64)?;
    write_ends(row, label, out)?;
    out.text("frame", row.frame)?;
    out.text("label", label)?;
    out.end_object()
}

// Appends the member of the ranks whose path ends at a row.
fn write_ends(row: &Row<'_>, label: &str, out: &mut JsonText) -> Result<(), AllocError>
    requires { label.now ≡ text_of row.now.label.now }
    ensures { OnOk result
        (out.new ≡ out.old ++ member_tokens (codes "ends") (ranks_data row.now.ends.now)) }
{
    if row.ends.equals(row.label) {
        return out.text("ends", label);
    }
    let ends = ranks_text(out.allocator(), row.ends)?;
    out.text("ends", ends.as_str())
}

/// Appends the list of the classes.
pub fn write_classes(classes: &TreeClasses<'_>, out: &mut JsonText) -> Result<(), AllocError>
    requires indices { HaveIndices (length classes.now.seen.items) classes.now.all.items }
    ensures { OnOk result (out.new ≡ out.old ++ value_tokens (classes_data (classes_view classes.now))) }
{
    out.begin_list()?;
    for class in &classes.all {
        write_class(&classes.seen, class, out)?;
    }
    out.end_list()
}

// Appends the object of a class of these paths.
fn write_class(seen: &[SeenPath<'_>], class: &Class, out: &mut JsonText) -> Result<(), AllocError>
    requires indices { AllByRecursion (λ i. i < length seen.now) class.now.paths.items }
    ensures { OnOk result
        (out.new ≡ out.old ++ value_tokens (class_data (class_view (entries_view seen.now) class.now))) }
{
    out.begin_object()?;
    out.key("paths")?;
    write_paths(seen, &class.paths, out)?;
    let ranks = ranks_text(out.allocator(), &class.ranks)?;
    out.text("ranks", ranks.as_str())?;
    out.end_object()
}

// Appends the list of the paths that have these indices.
fn write_paths(seen: &[SeenPath<'_>], indices: &[u32], out: &mut JsonText) -> Result<(), AllocError>
    requires indices { AllByRecursion (λ i. i < length seen.now) indices.now }
    ensures { OnOk result
        (out.new
        ≡ out.old
        ++ value_tokens (list_of
        (map (λ path. string (text_of_path path)) (map (path_of (entries_view seen.now)) indices.now)))) }
{
    out.begin_list()?;
    for index in indices {
        let text = path_text(out.allocator(), &seen[*index as usize].path)?;
        out.string(text.as_str())?;
    }
    out.end_list()
}
