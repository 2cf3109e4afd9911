//! The nodes of a job: a tree of named nodes.

ghost use Rattle.std.specs.Prelude.{◌≡◌, ◌≢◌, ◌<◌, ◌↔◌, ℕ, IsTrue, IfOk, None, Some, length, map, string_bytes};
ghost use Rattle.overlay_setup.specs.Names.{name_of, number_of};
ghost use Rattle.overlay_setup.specs.Trees.{parent_of, root_of, is_daemon, AreDaemonFlags};
ghost use Rattle.overlay_setup.specs.Topologies.{IsTopology, topology};
ghost use Rattle.overlay_setup.specs.Daemons.{daemon_named, IsDaemonNamed};

use indexmap::IndexSet;
use std::alloc::{AllocError, Global};
use std::marker::Model;

/// The most nodes that a job may have.
pub const NODE_LIMIT: u32 = 512;

/// The most links between the front end and a node.
pub const DEPTH_LIMIT: u32 = 8;

/// The nodes of a job, numbered from 0 on: a tree with one root, the front end, whose leaves are the daemons.
#[derive(Drop)]
pub struct Topology {
    // By node number; the set finds a name's number.
    names: IndexSet<String>,
    // By node number; the front end's is None.
    parents: Vec<Option<u32>>,
    // By node number: whether the node is a daemon.
    daemons: Vec<bool>,
}

impl Model for Topology {
    ghost use Rattle.std.specs.Prelude.{string_bytes, map};
    ghost use Rattle.overlay_setup.specs.Topologies.{Nodes, nodes_code, IsTopology, topology};
    ghost use Rattle.overlay_setup.specs.Trees.{AreDaemonFlags};

    ghost Value = { Nodes };

    ghost coded = { nodes_code };

    ghost view = { λ a. topology (map string_bytes a.names.keys) a.parents.items };

    ghost invariant = { λ a.
        IsTopology (topology (map string_bytes a.names.keys) a.parents.items)
        × AreDaemonFlags a.parents.items a.daemons.items };
}

impl Topology {
    /// The topology with these names, in order of number, and each node's parent.
    pub fn new(names: IndexSet<String>, parents: Vec<Option<u32>>) -> Result<Topology, AllocError>
        requires { IsTopology (topology (map string_bytes names.keys) parents.items) }
        ensures { IfOk result (λ t. t ≡ topology (map string_bytes names.keys) parents.items) }
    {
        let daemons = daemon_flags(*parents.allocator(), parents.as_slice())?;
        Ok(Topology {
            names,
            parents,
            daemons,
        })
    }

    /// The invariant of a topology, for the prover. It does nothing.
    pub fn invariant(&self)
        ensures { IsTopology self.now }
    {
        // for the proof: the invariant of the value
        let _ = &self.parents;
    }

    /// How many nodes there are: 2 to `NODE_LIMIT`.
    pub fn nodes(&self) -> u32
        ensures { result ≡ length self.now.parents }
    {
        self.parents.len() as u32
    }

    /// The name of a node.
    pub fn name(&self, n: u32) -> &str
        requires { n < length self.now.parents }
        ensures { result.now ≡ name_of self.now.names n }
    {
        self.names.as_slice()[n as usize].as_str()
    }

    /// The number of the node with this name.
    pub fn number_of(&self, name: &[u8]) -> Option<u32>
        ensures { result ≡ number_of name.now self.now.names }
    {
        let names = &self.names;
        let Ok(name) = str::from_utf8(name) else {
            return None;
        };
        match names.get_index_of(name) {
            Some(number) => Some(number as u32),
            None => None,
        }
    }

    /// The parent of a node; none for the front end.
    pub fn parent(&self, n: u32) -> Option<u32>
        requires { n < length self.now.parents }
        ensures { result ≡ parent_of self.now.parents n }
    {
        self.parents[n as usize]
    }

    /// The front end: the one node without a parent.
    pub fn front(&self) -> u32
        ensures value { result ≡ root_of self.now.parents }
        ensures node { result < length self.now.parents }
        ensures root { parent_of self.now.parents result ≡ None }
    {
        self.parents
            .iter()
            .take_while(|parent| parent.is_some())
            .count() as u32
    }

    /// Whether a node is a daemon: it has no children.
    pub fn is_daemon(&self, n: u32) -> bool
        requires { n < length self.now.parents }
        ensures value { result ≡ is_daemon self.now.parents n }
        ensures leaf { IsTrue result ↔ ((m : ℕ) → parent_of self.now.parents m ≢ Some n) }
    {
        self.daemons[n as usize]
    }

    /// The number of the daemon with this name. It is none where no node has the name, or the node is not a daemon.
    #[tactic(auto, unfolding(crate::specs::Daemons::daemon_named))]
    pub fn daemon_named(&self, name: &[u8]) -> Option<u32>
        ensures value { result ≡ daemon_named name.now self.now }
        ensures exact { (n : ℕ) → (result ≡ Some n) ↔ IsDaemonNamed self.now name.now n }
    {
        self.invariant();
        match self.number_of(name) {
            Some(n) if self.is_daemon(n) => Some(n),
            _ => None,
        }
    }
}

// Whether each node is a daemon, by node number.
fn daemon_flags(alloc: Global, parents: &[Option<u32>]) -> Result<Vec<bool>, AllocError>
    requires { (n m : ℕ) → parent_of parents.now n ≡ Some m → (n < length parents.now) × (m < length parents.now) }
    ensures { IfOk result (λ flags. AreDaemonFlags parents.now flags.items) }
{
    let mut flags = vec![in alloc; true; parents.len()]?;
    for parent in parents {
        if let Some(parent) = parent {
            flags[*parent as usize] = false;
        }
    }
    Ok(flags)
}
