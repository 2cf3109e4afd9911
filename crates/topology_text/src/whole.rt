//! The checks of a whole topology: one root, and each node within reach of it.

ghost use Rattle.std.specs.Prelude.{◌≡◌, ◌<◌, ◌+◌, ◌^◌, length, drop, IfSome, Some, IfOk, MatchOption, [], ◌∷◌};
ghost use Rattle.overlay_setup.specs.Trees.{parent_of};
ghost use Rattle.topology_text.specs.Whole.{is_within, roots_from, parents_of, line_of, first_beyond, whole_error};

use crate::parser::Node;
use overlay_setup::DEPTH_LIMIT;
use std::alloc::{AllocError, Global};
use text_lines::{Quantity, Reason, TextError};

// The parent of a node.
fn parent_at(parents: &[Option<u32>], node: u32) -> Option<u32>
    ensures { result ≡ parent_of parents.now node }
{
    match parents.get(node as usize) {
        Some(parent) => *parent,
        None => None,
    }
}

// Whether a node without a parent is at most `links` above this one.
fn is_within(parents: &[Option<u32>], node: u32, links: u32) -> bool
    ensures { result ≡ is_within parents.now links node }
{
    let mut at = node;
    for _ in 0..links {
        let Some(parent) = parent_at(parents, at) else {
            return true;
        };
        at = parent;
    }
    parent_at(parents, at).is_none()
}

// The next node without a parent, from one on.
fn next_root(parents: &[Option<u32>], from: u32) -> Option<u32>
    requires { length parents.now < 2 ^ 31 }
    ensures root { MatchOption result (roots_from from (drop from parents.now) ≡ []) (
        λ n. roots_from from (drop from parents.now) ≡ n ∷ roots_from (n + 1) (drop (n + 1) parents.now)
        ) }
    ensures within { IfSome result (λ n. n < length parents.now) }
{
    for node in from..parents.len() as u32 {
        if parent_at(parents, node).is_none() {
            return Some(node);
        }
    }
    None
}

// The least node that is not within so many links of a root.
fn first_beyond(parents: &[Option<u32>], links: u32) -> Option<u32>
    requires { length parents.now < 2 ^ 31 }
    ensures { result ≡ first_beyond parents.now links 0 (length parents.now) }
{
    for node in 0..parents.len() as u32 {
        if !is_within(parents, node, links) {
            return Some(node);
        }
    }
    None
}

// The line of a node's first appearance.
fn line_of(nodes: &[Node], node: u32) -> u64
    ensures { result ≡ line_of nodes.now node }
{
    match nodes.get(node as usize) {
        Some(node) => node.line,
        None => 0,
    }
}

/// The first error of the whole text.
pub fn whole_error(nodes: &[Node], parents: &[Option<u32>]) -> Option<TextError>
    requires countable { length parents.now < 2 ^ 31 }
    requires parents { parents.now ≡ parents_of nodes.now }
    ensures { result ≡ whole_error nodes.now }
{
    let Some(root) = next_root(parents, 0) else {
        return Some(TextError::bad(0, Reason::NoRoot));
    };
    if let Some(second) = next_root(parents, root + 1) {
        return Some(TextError::bad(line_of(nodes, second), Reason::TwoRoots));
    }
    if let Some(node) = first_beyond(parents, parents.len() as u32 - 1) {
        return Some(TextError::bad(line_of(nodes, node), Reason::Unreached));
    }
    if let Some(_) = first_beyond(parents, DEPTH_LIMIT) {
        return Some(TextError::over(0, Quantity::Depth, DEPTH_LIMIT));
    }
    None
}

/// Each node's parent.
pub fn parents_of(alloc: Global, nodes: &[Node]) -> Result<Vec<Option<u32>>, AllocError>
    ensures { IfOk result (λ parents. parents.items ≡ parents_of nodes.now) }
{
    let mut parents = Vec::new(alloc);
    for node in nodes {
        parents.push(node.parent)?;
    }
    Ok(parents)
}
