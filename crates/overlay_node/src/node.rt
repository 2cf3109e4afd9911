//! A node and what its events do.

ghost use Rattle.std.specs.Prelude.{◌≡◌, ◌<◌, ◌^◌, [], IfOk, true};
ghost use Rattle.std.specs.List.{AllByRecursion};
ghost use Rattle.stat_plan.specs.Invariants.{IsPlan};
ghost use Rattle.stat_plan.specs.Plans.{Plan, nodes, serves};
ghost use Rattle.overlay_core.specs.Machine.{start_node};
ghost use Rattle.overlay_core.specs.Nodes.{Node as MachineNode};
ghost use Rattle.overlay_core.specs.TreeReleases.{bare_releases};
ghost use Rattle.overlay_node.specs.NodeViews.{ContinueNumbers, CountMore, Counts, IsNodeAfter, IsNodeOf, MayHandle, has_running, next_wave, node_of, outcome_at};
ghost use Rattle.overlay_node.specs.Outputs.{AreFrames, ReleaseFits, frames_of, packets_of};

use crate::held::HeldWave;
use crate::init::fresh_waves;
use crate::output::Outgoing;
use crate::work::{NodeWork, WaveWork};
use loss_adoption::Kin;
use overlay_event::Event;
use packet_frame::Frame;
use prefix_tree::PrefixTree;
use stat_plan::Plan;
use std::alloc::{AllocError, Global};
use std::marker::Model;
use wave_resend::WaveBook;

/// A node of the overlay.
#[derive(Drop)]
pub struct Node<T: PrefixTree> {
    kin: Kin,
    book: WaveBook,
    // By stream and wave, as in the book.
    held: Vec<HeldWave<T>>,
    count: u64,
}

impl<T: PrefixTree> Model for Node<T> {
    ghost use Rattle.overlay_node.specs.NodeViews.{NodeView, coded_node};

    ghost Value = { NodeView };

    ghost coded = { coded_node };

    ghost view = { λ n. record {
      number = n.kin.node;
      kin = n.kin.kin;
      book = n.book;
      held = n.held.items;
      count = n.count;
    } };
}

impl<T: PrefixTree> Node<T> {
    /// A node that has done no event yet.
    pub fn new(alloc: Global, plan: &Plan, n: u32) -> Result<Node<T>, AllocError>
        requires { n < nodes plan.now }
        ensures number { IfOk result (λ node. node.number ≡ n) }
        ensures start { IfOk result (λ node. ◌≡◌ {A = MachineNode} (node_of node) (start_node plan.now n)) }
        ensures fits { IfOk result (IsNodeOf plan.now) }
        ensures counts { IfOk result (λ node. Counts node.held []) }
    {
        let kin = Kin::new(alloc, plan, n)?;
        let book = WaveBook::new(alloc, plan, n)?;
        let held = fresh_waves(alloc, plan, n)?;
        Ok(Node {
            kin,
            book,
            held,
            count: 0,
        })
    }

    /// Does an event of the node: takes its samples, receives a frame, or lets its timers go on. `frame` is the frame
    /// that is received at `Recv`, and none at other events. Returns the node afterwards, and with it the packets whose
    /// frames it sends, in order, and what it releases: all are the machine's.
    ///
    /// Fails only if memory runs out, and drops the node then: nothing of it is left.
    pub fn handle(
        self,
        alloc: Global,
        plan: &Plan,
        event: Event,
        frame: Option<Frame>,
    ) -> Result<(Node<T>, Outgoing<T>), AllocError>
        requires node { IsNodeOf plan.now self }
        requires event { MayHandle plan.now self event frame }
        requires count { self.count < 2 ^ 62 }
        ensures number { IfOk result (λ r. r.0.number ≡ self.number) }
        ensures node { IfOk result (λ r. IsNodeAfter plan.now self r.0 event frame) }
        ensures sends { IfOk result
            (λ r. r.1.sends ≡ frames_of plan.now (outcome_at plan.now self event frame).work.sends) }
        ensures packets { IfOk result
            (λ r. packets_of r.1.sends ≡ (outcome_at plan.now self event frame).work.sends) }
        ensures frames { IfOk result (λ r. AreFrames plan.now r.1.sends) }
        ensures releases { IfOk result
            (λ r. bare_releases r.1.releases ≡ (outcome_at plan.now self event frame).work.releases) }
        ensures fits { IfOk result (λ r. IsNodeOf plan.now r.0) }
        ensures trees { IfOk result (λ r. AllByRecursion (ReleaseFits plan.now) r.1.releases) }
        ensures numbers { IfOk result (λ r. ContinueNumbers self.held r.1.releases) }
        ensures counts { IfOk result (λ r. CountMore self.held r.0.held r.1.releases) }
    {
        let Node {
            mut kin,
            book,
            held,
            count,
        } = self;
        let effects = Outgoing {
            sends: Vec::new(alloc),
            releases: Vec::new(alloc),
        };
        let mut node = NodeWork {
            held,
            work: WaveWork { book, effects },
        };
        plan.invariant();
        node.step(plan, &mut kin, event, frame)?;
        let NodeWork { held, work } = node;
        let after = Node {
            kin,
            book: work.book,
            held,
            count: count + 1,
        };
        Ok((after, work.effects))
    }

    /// The first wave of a stream that the node serves of which nothing has come in yet, if there is one.
    pub fn next_sample(&self, s: u8) -> Option<u8>
        ensures { (p : Plan) → IsPlan p → IsNodeOf p self.now → serves p self.now.number s ≡ true
            → result ≡ next_wave p self.now s }
    {
        self.book.next_empty(s)
    }

    /// Whether a timer runs.
    pub fn has_running(&self) -> bool
        ensures { (p : Plan) → IsNodeOf p self.now → result ≡ has_running p self.now }
    {
        self.book.has_running()
    }

    /// The node's number.
    pub fn number(&self) -> u32
        ensures { result ≡ self.now.number }
    {
        self.kin.node()
    }

    /// How many events the node has done.
    pub fn count(&self) -> u64
        ensures { result ≡ self.now.count }
    {
        self.count
    }
}
