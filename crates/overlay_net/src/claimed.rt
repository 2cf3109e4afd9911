//! An event that was claimed, with what was moved out of the net for it.

ghost use Rattle.std.specs.Prelude.{◌≡◌, ◌<◌, [], IfOk, None, Some, map};
ghost use Rattle.stat_plan.specs.Plans.{nodes};
ghost use Rattle.overlay_node.specs.Outputs.{AreFrames, packets_of};
ghost use Rattle.overlay_node.specs.Frames.{IsFrameOf};
ghost use Rattle.overlay_core.specs.Nodes.{Down};
ghost use Rattle.overlay_core.specs.TreeReleases.{releases_view};
ghost use Rattle.stat_plan.specs.Plans.{is_related};
ghost use Rattle.overlay_net.specs.Claims.{IsSameClaim, Leaves, Left, MayBeWorked, WasWorked, notices};

use overlay_event::Event;
use overlay_node::{Node, Outgoing};
use packet_frame::{Frame, Packet, encode};
use prefix_tree::PrefixTree;
use stat_plan::Plan;
use std::alloc::{AllocError, Global};
use std::marker::Model;
use std::snapshot::Snapshot;

/// What an event left besides its node.
#[derive(Drop)]
pub struct Work<T: PrefixTree> {
    /// What the node sends and releases.
    pub effects: Outgoing<T>,
    /// The receivers of what it sends, in order.
    pub receivers: Vec<u32>,
}

/// An event that was claimed, with its node and the frame that it receives, which were moved out of the net. After
/// [`work`](Claimed::work) it has what the event left of them.
#[derive(Drop)]
pub struct Claimed<T: PrefixTree> {
    event: Event,
    node: Node<T>,
    frame: Option<Frame>,
    // What the event left, once it was worked on.
    work: Option<Work<T>>,
    // The node and the frame as they were moved out, for contracts alone.
    before: Snapshot<Node<T>>,
    taken: Snapshot<Option<Frame>>,
}

impl<T: PrefixTree> Model for Claimed<T> {
    ghost use Rattle.overlay_net.specs.Claims.{ClaimView};
    ghost use Rattle.overlay_net.specs.Codes.{coded_claim};
    ghost use Rattle.overlay_net.specs.Views.{IsClaimOf, claim_of};

    ghost Value = { ClaimView };

    ghost coded = { coded_claim };

    ghost view = { λ c. claim_of c.event c.before.value c.taken.value c.node c.work };

    ghost invariant = { λ c. IsClaimOf c.before.value c.taken.value c.node c.frame c.work };
}

impl<T: PrefixTree> Claimed<T> {
    /// A claim that was not worked on yet.
    pub(crate) fn new(event: Event, node: Node<T>, frame: Option<Frame>) -> Claimed<T>
        ensures { result ≡ record { event = event; node = node; frame = frame; left = None } }
    {
        let before = Snapshot::of(&node);
        let taken = Snapshot::of(&frame);
        Claimed {
            event,
            node,
            frame,
            work: None,
            before,
            taken,
        }
    }

    /// The event.
    pub fn event(&self) -> Event
        ensures { result ≡ self.now.event }
    {
        self.event
    }

    /// What the event left besides the node.
    pub(crate) fn effects(&self) -> &Outgoing<T>
        requires { (left : Left) × (self.now.left ≡ Some left) }
        ensures { (left : Left) → self.now.left ≡ Some left
            → (result.now.sends ≡ left.sends) × (result.now.releases ≡ left.releases) }
    {
        let Some(work) = &self.work else {
            unreachable!()
        };
        &work.effects
    }

    /// The event, the node, what they left besides, and the receivers of what is sent.
    pub(crate) fn into_parts(self) -> (Event, Node<T>, Outgoing<T>, Vec<u32>)
        requires { (left : Left) × (self.left ≡ Some left) }
        ensures event { result.0 ≡ self.event }
        ensures left { self.left
            ≡ Some (record { node = result.1; sends = result.2.sends; releases = result.2.releases }) }
        ensures receivers { result.3.items ≡ map (λ v. v.0) result.2.sends }
    {
        let Claimed {
            event,
            node,
            frame,
            work,
            before,
            taken,
        } = self;
        drop(frame);
        drop(before);
        drop(taken);
        let Some(Work { effects, receivers }) = work else {
            unreachable!()
        };
        (event, node, effects, receivers)
    }

    /// Does the event at its node: the node takes its samples, handles the frame, or lets its timers go on. A loss
    /// leaves the node as it is; its notices are made. The plan must be the net's.
    ///
    /// Fails only if memory runs out, and drops the claim then: nothing is left of it and its node.
    pub fn work(self, alloc: Global, plan: &Plan) -> Result<Claimed<T>, AllocError>
        requires fresh { self.left ≡ None }
        requires may { MayBeWorked plan.now self }
        ensures worked { IfOk result (WasWorked plan.now) }
        ensures same { IfOk result (IsSameClaim self) }
    {
        let Claimed {
            event,
            node,
            frame,
            work,
            before,
            taken,
        } = self;
        drop(work);
        let (node, work) = do_event(alloc, plan, node, event, frame)?;
        Ok(Claimed {
            event,
            node,
            frame: None,
            work: Some(work),
            before,
            taken,
        })
    }
}

// Does an event at its node.
fn do_event<T: PrefixTree>(
    alloc: Global,
    plan: &Plan,
    node: Node<T>,
    event: Event,
    frame: Option<Frame>,
) -> Result<(Node<T>, Work<T>), AllocError>
    requires { MayBeWorked plan.now (record { event = event; node = node; frame = frame; left = None }) }
    ensures leaves { IfOk result (λ r. Leaves plan.now node event frame
        (record { node = r.0; sends = r.1.effects.sends; releases = r.1.effects.releases })) }
    ensures receivers { IfOk result (λ r. r.1.receivers.items ≡ map (λ v. v.0) r.1.effects.sends) }
{
    let (after, effects) = match event {
        Event::Lose { node: n } => {
            let effects = make_notices(alloc, plan, n)?;
            (node, effects)
        }
        _ => node.handle(alloc, plan, event, frame)?,
    };
    let receivers = receivers_of(alloc, effects.sends.as_slice())?;
    Ok((after, Work { effects, receivers }))
}

// The receivers of what is sent.
fn receivers_of(alloc: Global, sends: &[(u32, Frame)]) -> Result<Vec<u32>, AllocError>
    ensures { IfOk result (λ receivers. receivers.items ≡ map (λ v. v.0) sends.now) }
{
    let mut receivers = Vec::with_capacity(alloc, sends.len())?;
    for (to, _) in sends {
        receivers.push(*to)?;
    }
    Ok(receivers)
}

// The frame that says that its sender is lost.
fn down_frame<T: PrefixTree>(alloc: Global, plan: &Plan) -> Result<Frame, AllocError>
    ensures { IfOk result (IsFrameOf plan.now Down) }
{
    encode::<T>(alloc, &Packet::Down)
}

// Whether one of the nodes is an original ancestor of the other.
fn is_kin(plan: &Plan, n: u32, b: u32) -> bool
    requires n { n < nodes plan.now }
    requires b { b < nodes plan.now }
    ensures { result ≡ is_related plan.now n b }
{
    plan.is_under(n, b) || plan.is_under(b, n)
}

// The notices of the loss of a node: a frame for each of its ancestors and descendants.
fn make_notices<T: PrefixTree>(
    alloc: Global,
    plan: &Plan,
    n: u32,
) -> Result<Outgoing<T>, AllocError>
    requires { n < nodes plan.now }
    ensures sent { IfOk result (λ effects. packets_of effects.sends ≡ notices plan.now n) }
    ensures frames { IfOk result (λ effects. AreFrames plan.now effects.sends) }
    ensures silent { IfOk result (λ effects. effects.releases ≡ []) }
{
    let mut sends = Vec::new(alloc);
    for b in 0..plan.nodes() {
        if b != n && is_kin(plan, n, b) {
            let frame = down_frame::<T>(alloc, plan)?;
            sends.push((b, frame))?;
        }
    }
    Ok(Outgoing {
        sends,
        releases: Vec::new(alloc),
    })
}
