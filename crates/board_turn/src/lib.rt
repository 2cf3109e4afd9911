//! A board of nodes that threads share by a turn. A seat takes the turn, claims an event of a node that is at home,
//! gives the turn back, works on the node alone, takes the turn again and commits. So each event is one commit, and
//! between a claim and its commit no other seat changes the node.
#![tactic(auto)]

mod board;
mod holding;
mod plays;
mod turn;
mod view;

pub use board::Board;
pub use holding::Holding;
pub use turn::{Held, Turn, TurnSeat};

#[cfg(test)]
mod tests;
