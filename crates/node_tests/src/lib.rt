//! Tests of the parts of a node, of its frames and of a node itself, and nothing else. Each module has the tests of the
//! library with its name; `captures` and `plain_decoder` are what `packet_frame` is compared with, and `plans` has
//! what several of them use.
#![tactic(auto)]

#[cfg(test)]
mod captures;
#[cfg(test)]
mod merge_filter_tests;
#[cfg(test)]
mod overlay_node_tests;
#[cfg(test)]
mod packet_frame_tests;
#[cfg(test)]
mod plain_decoder;
#[cfg(test)]
mod plans;
#[cfg(test)]
mod sync_filter_tests;
#[cfg(test)]
mod wave_resend_tests;
#[cfg(test)]
mod wide_merge_tests;
