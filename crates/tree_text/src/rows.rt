//! The text of a tree. Mostly the ranks of a row are those of the row before it, and the ranks that end there are all
//! of them. So the text of the last label is kept, and written again where it is the text of the next ranks.
ghost use Rattle.std.specs.Prelude.{◌≡◌, ◌++◌, OnErr, OnOk};
ghost use Rattle.rank_set.specs.Text.{text_of};
ghost use Rattle.prefix_tree.specs.Chains.{IsGoodChain};
ghost use Rattle.tree_text.specs.TreeText.{chain_text, ends_text, indent, line_of, line_with, no_ends_text, rows_text, tree_text as text_of_tree};

use prefix_tree::{Chain, PrefixTree, Row};
use rank_set::RankSet;
use std::alloc::AllocError;

/// Appends a line for each row of the tree, in order.
pub fn write_tree<T: PrefixTree>(tree: &T, out: &mut Vec<u8>) -> Result<(), AllocError>
    ensures { OnOk result (out.new.items ≡ out.old.items ++ text_of_tree (T.tree tree.now)) }
{
    let root = tree.row(0);
    let mut label_text = Vec::new(*out.allocator());
    root.label.write_text(&mut label_text)?;
    write_row(&root, &label_text, out)?;
    write_below(tree, out)
}

/// Appends a line for each row of the tree besides the root, in order. On failure `out` is unchanged.
pub fn write_rows<T: PrefixTree>(tree: &T, out: &mut Vec<u8>) -> Result<(), AllocError>
    ensures ok { OnOk result (out.new.items ≡ out.old.items ++ rows_text (T.tree tree.now)) }
    ensures err { OnErr result (out.new.items ≡ out.old.items) }
{
    let mut text = Vec::new(*out.allocator());
    write_below(tree, &mut text)?;
    out.extend_from_slice(&text)?;
    Ok(())
}

// Appends a line for each row of the tree besides the root, in order.
fn write_below<T: PrefixTree>(tree: &T, out: &mut Vec<u8>) -> Result<(), AllocError>
    ensures { OnOk result (out.new.items ≡ out.old.items ++ rows_text (T.tree tree.now)) }
{
    let mut label = tree.row(0).label;
    let mut label_text = Vec::new(*out.allocator());
    label.write_text(&mut label_text)?;
    let mut at = tree.cursor(*out.allocator())?;
    while let Some(chain) = tree.next_chain(&mut at) {
        if !chain.label.equals(label) {
            label = chain.label;
            label_text.clear();
            label.write_text(&mut label_text)?;
        }
        write_chain(&chain, &label_text, out)?;
    }
    Ok(())
}

// Appends the lines of the rows of a chain, the text of whose label is at hand.
fn write_chain(chain: &Chain<'_>, label_text: &[u8], out: &mut Vec<u8>) -> Result<(), AllocError>
    requires good { IsGoodChain chain.now }
    requires label { label_text.now ≡ text_of chain.now.label.now }
    ensures { OnOk result (out.new.items ≡ out.old.items ++ chain_text chain.now) }
{
    let last = chain.frames.len() - 1;
    for i in chain.skip..last {
        let depth = chain.depth + (i - chain.skip);
        write_row_above(depth, chain.frames.frame(i), label_text, out)?;
    }
    let row = Row {
        depth: chain.depth + (last - chain.skip),
        frame: chain.frames.frame(last),
        label: chain.label,
        ends: chain.ends,
    };
    write_row(&row, label_text, out)
}

// Appends the line of a row where no path ends, the text of whose label is at hand.
fn write_row_above(
    depth: usize,
    frame: &str,
    label_text: &[u8],
    out: &mut Vec<u8>,
) -> Result<(), AllocError>
    ensures { OnOk result
        (out.new.items ≡ out.old.items ++ line_with depth label_text.now no_ends_text frame.now) }
{
    write_indent(depth, out)?;
    out.extend_from_slice(label_text)?;
    out.extend_from_slice(b" - ")?;
    out.extend_from_slice(frame.as_bytes())?;
    out.push(b'\n')?;
    Ok(())
}

// Appends the line of a row, the text of whose label is at hand.
fn write_row(row: &Row<'_>, label_text: &[u8], out: &mut Vec<u8>) -> Result<(), AllocError>
    requires { label_text.now ≡ text_of row.now.label.now }
    ensures { OnOk result
        (out.new.items
        ≡ out.old.items ++ line_of row.now.depth row.now.label.now row.now.ends.now row.now.frame.now) }
{
    write_indent(row.depth, out)?;
    out.extend_from_slice(label_text)?;
    out.push(b' ')?;
    write_ends(row, label_text, out)?;
    out.push(b' ')?;
    out.extend_from_slice(row.frame.as_bytes())?;
    out.push(b'\n')?;
    Ok(())
}

// Appends two spaces for each frame, those of eight frames at once as long as there are so many.
fn write_indent(depth: usize, out: &mut Vec<u8>) -> Result<(), AllocError>
    ensures { OnOk result (out.new.items ≡ out.old.items ++ indent depth) }
{
    let mut left = depth;
    while left >= 8 {
        out.extend_from_slice(b"                ")?;
        left -= 8;
    }
    for _ in 0..left {
        out.extend_from_slice(b"  ")?;
    }
    Ok(())
}

// Appends the ranks of which a path ends at a row, or a dash.
fn write_ends(row: &Row<'_>, label_text: &[u8], out: &mut Vec<u8>) -> Result<(), AllocError>
    requires { label_text.now ≡ text_of row.now.label.now }
    ensures { OnOk result (out.new.items ≡ out.old.items ++ ends_text row.now.ends.now) }
{
    if row.ends.is_empty() {
        out.push(b'-')?;
    } else if row.ends.equals(row.label) {
        out.extend_from_slice(label_text)?;
    } else {
        row.ends.write_text(out)?;
    }
    Ok(())
}
