//! Tests of the data structures, and nothing else: sets and tables of ranks, call paths, trees, counts and inboxes. A
//! crate with tests is proved twice, so tests have crates of their own. Each module has the tests of the library with
//! its name; those that begin with `arena` have the tests of `arena_tree`, and `sets` and `trees` have what several of
//! them use.
#![tactic(auto)]

#[cfg(test)]
mod arena_cost;
#[cfg(test)]
mod arena_memory;
#[cfg(test)]
mod arena_tree_tests;
#[cfg(test)]
mod arena_walk;
#[cfg(test)]
mod call_path_tests;
#[cfg(test)]
mod count_tree_tests;
#[cfg(test)]
mod equiv_class_tests;
#[cfg(test)]
mod node_arena_tests;
#[cfg(test)]
mod node_inbox_tests;
#[cfg(test)]
mod prefix_tree_tests;
#[cfg(test)]
mod rank_places_tests;
#[cfg(test)]
mod rank_set_tests;
#[cfg(test)]
mod rank_table_tests;
#[cfg(test)]
mod sets;
#[cfg(test)]
mod trees;
