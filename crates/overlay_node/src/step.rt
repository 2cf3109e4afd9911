//! One event of a node.

ghost use Rattle.std.specs.Prelude.{◌≡◌, IfOk, OnOk};
ghost use Rattle.stat_plan.specs.Plans.{waves_at};
ghost use Rattle.loss_adoption.specs.NodeKins.{IsKinOf};
ghost use Rattle.wave_resend.specs.Books.{book_of, keys_of};
ghost use Rattle.packet_frame.specs.Sent.{packet_map};
ghost use Rattle.overlay_node.specs.Acting.{Steps, kin_after, kin_from, receive_step, step_of};
ghost use Rattle.overlay_node.specs.Contexts.{node_during};
ghost use Rattle.overlay_node.specs.Frames.{IsFrame, packet_of, packet_view, tree_packet};
ghost use Rattle.overlay_node.specs.NodeViews.{AreHeldFits, MayHandle, MayTake, held_keys};

use crate::context::NodeContext;
use crate::work::NodeWork;
use loss_adoption::Kin;
use overlay_event::Event;
use packet_frame::{Frame, FrameError, Packet, decode};
use prefix_tree::PrefixTree;
use stat_plan::Plan;
use std::alloc::{AllocError, Global};

// The packet of a frame.
fn packet_in<T: PrefixTree>(
    alloc: Global,
    plan: &Plan,
    frame: &Frame,
) -> Result<Packet<T>, AllocError>
    requires { IsFrame plan.now frame.now }
    ensures { IfOk result (λ packet. packet_map T.tree packet ≡ tree_packet plan.now (packet_of frame.now)) }
{
    match decode(alloc, frame.bytes()) {
        Ok((packet, _)) => Ok(packet),
        Err(FrameError::OutOfMemory) => Err(AllocError),
        Err(FrameError::Refused { .. }) => unreachable!(),
    }
}

impl<T: PrefixTree> NodeWork<T> {
    // The node receives a packet from another.
    fn receive(
        &mut self,
        plan: &Plan,
        kin: &mut Kin,
        from: u32,
        packet: Packet<T>,
    ) -> Result<(), AllocError>
        requires kin { IsKinOf plan.now kin.old }
        requires book_keys { keys_of self.old.work.book ≡ waves_at plan.now kin.old.node }
        requires held_keys { held_keys self.old.held.items ≡ waves_at plan.now kin.old.node }
        requires fits { AreHeldFits plan.now kin.old.node (book_of self.old.work.book) self.old.held.items }
        requires packet { MayTake plan.now kin.old.node from (packet_map T.tree packet) }
        ensures kin { OnOk result
            (kin.new ≡ record {
              node = kin.old.node;
              kin = kin_from plan.now kin.old.node kin.old.kin from (packet_view T.tree packet);
            }) }
        ensures fits { OnOk result (IsKinOf plan.now kin.new) }
        ensures steps { OnOk result (Steps plan.now kin.old.node
            (receive_step plan.now kin.old.node kin.old.kin (held_keys self.old.held.items) from
            (packet_view T.tree packet)) self.old self.new) }
    {
        plan.invariant();
        match packet {
            Packet::Up { stream, wave, tree } => {
                let context = NodeContext { plan, kin };
                self.on_up(&context, stream, wave, tree)
            }
            Packet::Done { stream, wave } => {
                let context = NodeContext { plan, kin };
                self.on_done(&context, stream, wave)
            }
            Packet::Attach => self.on_attach(plan, kin, from),
            Packet::Down => self.on_down(plan, kin, from),
        }
    }

    /// Does an event of the node.
    pub fn step(
        &mut self,
        plan: &Plan,
        kin: &mut Kin,
        event: Event,
        frame: Option<Frame>,
    ) -> Result<(), AllocError>
        requires kin { IsKinOf plan.now kin.old }
        requires book_keys { keys_of self.old.work.book ≡ waves_at plan.now kin.old.node }
        requires held_keys { held_keys self.old.held.items ≡ waves_at plan.now kin.old.node }
        requires fits { AreHeldFits plan.now kin.old.node (book_of self.old.work.book) self.old.held.items }
        requires event { MayHandle plan.now (node_during kin.old self.old) event frame }
        ensures kin { OnOk result
            (kin.new ≡ record { node = kin.old.node; kin = kin_after plan.now kin.old.node kin.old.kin event frame }) }
        ensures fits { OnOk result (IsKinOf plan.now kin.new) }
        ensures steps { OnOk result (Steps plan.now kin.old.node
            (step_of plan.now kin.old.node kin.old.kin (held_keys self.old.held.items) event frame)
            self.old self.new) }
    {
        plan.invariant();
        match event {
            Event::Sample { stream, wave, .. } => {
                let context = NodeContext { plan, kin };
                self.on_sample(&context, stream, wave)
            }
            Event::Recv { from, .. } => match frame {
                Some(frame) => {
                    let packet = packet_in(*self.held.allocator(), plan, &frame)?;
                    self.receive(plan, kin, from, packet)
                }
                None => unreachable!(),
            },
            Event::Tick { .. } => {
                let context = NodeContext { plan, kin };
                self.on_tick(&context)
            }
            Event::Lose { .. } => unreachable!(),
        }
    }
}
