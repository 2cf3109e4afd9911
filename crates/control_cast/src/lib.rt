//! Commands that go down the overlay to the daemons: each node obeys each command once and in order, whatever inner
//! nodes are lost.
//!
//! The front end issues the commands, which are numbered from 1, and each node that obeys one passes it on to its
//! children. A node whose parent is lost attaches to the nearest ancestor that it doesn't know to be lost, with the
//! number of commands that it has obeyed, and gets those after it. A contract sees a [`CastNet`] as the plan, the
//! number of commands and the state of the cast machine.
//!
//! ```text
//! let mut net = CastNet::new(alloc, &plan, 2)?;
//! let journal = net.run_picked(seed)?;      // until nothing may come next
//! for n in 0..plan.nodes() {
//!     let done = net.obeyed(n);             // [1, 2] at each node that lives
//!     let gone = net.is_lost(n);
//! }
//! ```
//!
//! The machine is in `specs/Machine.antt`: links, kin and losses are those of `stat_plan`, and what a node obeys stands
//! on them. `specs/Casts.antt` says what a legal journal has done, and the functions of this file with empty bodies are
//! laws of the machine: what a law says is its contract. `specs/Rows.antt` has small jobs as examples.
//!
//! The net counts how many events of each node may come next. After an event the counts of its node and of the
//! receivers are made anew, so that an event costs what it touches; only a loss counts all nodes.
#![tactic(auto)]

ghost use Rattle.control_cast.specs.Bound.{bound};
ghost use Rattle.control_cast.specs.Casts.{AreEventsOf, ObeysInOrder, ObeysAll};
ghost use Rattle.control_cast.specs.Machine.{after, IsLegal, IsQuiet};
ghost use Rattle.control_cast.specs.Picked.{picked, AreListed, IsPicked};
ghost use Rattle.control_cast.specs.declared.event.CastEvent.{CastEvent as MachineEvent};
ghost use Rattle.stat_plan.specs.Invariants.{IsPlan};
ghost use Rattle.stat_plan.specs.Plans.{Plan};
ghost use Rattle.std.specs.Prelude.{◌≡◌, ◌≤◌, length, List, ℕ};

mod event;
mod events;
mod journal;
mod loss;
mod net;
mod node;
mod nodes;
mod packet;
mod pick;
mod state;

pub use event::CastEvent;
pub use journal::CastJournal;
pub use net::{CastError, CastNet};
pub use packet::Packet;

/// A law: after every legal journal each node has obeyed the commands from 1 on in order, each once, and a living node
/// has obeyed no more than any living original ancestor.
pub fn casts_obey_in_order()
    ensures order { (p : Plan) (commands : ℕ) (journal : List MachineEvent) → IsPlan p → IsLegal p commands journal
        → ObeysInOrder p (after p journal) }
{}

/// A law: where no event may come, each living node has obeyed all commands, whatever was lost.
pub fn whole_casts_reach_all()
    ensures reached { (p : Plan) (commands : ℕ) (journal : List MachineEvent) → IsPlan p → IsLegal p commands journal
        → IsQuiet p commands (after p journal) → ObeysAll p commands (after p journal) }
{}

/// A law: no legal journal is longer than the bound.
pub fn legal_casts_are_short()
    ensures within_bound { (p : Plan) (commands : ℕ) (journal : List MachineEvent) → IsPlan p
        → IsLegal p commands journal → length journal ≤ bound p commands }
{}

/// A law: the events of a legal journal are of nodes of the plan.
pub fn legal_casts_name_nodes()
    ensures nodes { (p : Plan) (commands : ℕ) (journal : List MachineEvent) → IsPlan p
        → IsLegal p commands journal → AreEventsOf p journal }
{}

/// A law: the list of enabled events has exactly the events that are enabled.
pub fn enabled_events_are_listed()
    ensures listed { (p : Plan) (commands : ℕ) (journal : List MachineEvent) → IsPlan p
        → IsLegal p commands journal → AreListed p commands (after p journal) }
{}

/// A law: a seed picks a journal, and no other; it is legal, and no event may come after it.
pub fn seeds_pick_one_journal()
    ensures exists { (p : Plan) (commands seed : ℕ) → IsPlan p → IsPicked p commands seed (picked p commands seed) }
    ensures unique { (p : Plan) (commands seed : ℕ) (journal : List MachineEvent) → IsPlan p
        → IsPicked p commands seed journal → journal ≡ picked p commands seed }
    ensures legal { (p : Plan) (commands seed : ℕ) → IsPlan p → IsLegal p commands (picked p commands seed) }
    ensures quiet { (p : Plan) (commands seed : ℕ) → IsPlan p
        → IsQuiet p commands (after p (picked p commands seed)) }
{}
