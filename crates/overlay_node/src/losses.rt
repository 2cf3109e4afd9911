//! What a node does where it hears of a loss, and where another node asks to be taken as a child.

ghost use Rattle.std.specs.Prelude.{◌≡◌, ◌≢◌, ◌<◌, ◌∷◌, [], true, OnOk};
ghost use Rattle.std.specs.List.{AllByRecursion};
ghost use Rattle.stat_plan.specs.Machine.Kin.{after_loss, is_parent, with_child};
ghost use Rattle.stat_plan.specs.Plans.{IsUnder, front, is_related, nodes, waves_at};
ghost use Rattle.loss_adoption.specs.NodeKins.{IsKinOf};
ghost use Rattle.merge_filter.specs.Contributions.{HasWave};
ghost use Rattle.wave_resend.specs.Books.{IsIn, book_of, keys_of};
ghost use Rattle.overlay_core.specs.Nodes.{Down};
ghost use Rattle.overlay_node.specs.Acting.{AreDistinct, Steps, adopt, receive_step, tell, told};
ghost use Rattle.overlay_node.specs.NodeViews.{AreHeldFits, held_keys};
ghost use Rattle.overlay_node.specs.Outputs.{Sends};

use crate::context::NodeContext;
use crate::events::is_closed;
use crate::held::HeldWave;
use crate::sending::{send_attach, send_done};
use crate::work::NodeWork;
use loss_adoption::{Kin, Reaction};
use packet_frame::Frame;
use prefix_tree::PrefixTree;
use stat_plan::Plan;
use std::alloc::AllocError;
use wave_resend::WaveBook;

// Tells a node that a wave is closed, if it is.
fn tell_if_closed<T: PrefixTree>(
    plan: &Plan,
    book: &WaveBook,
    held: &HeldWave<T>,
    to: u32,
    sends: &mut Vec<(u32, Frame)>,
) -> Result<(), AllocError>
    requires plan_wave { HasWave plan.now held.now.stream held.now.wave }
    requires known { IsIn held.now.stream held.now.wave book.now }
    requires node { to < nodes plan.now }
    ensures { OnOk result (Sends plan.now (told plan.now (book_of book.now) to ((held.now.stream, held.now.wave) ∷ []))
        sends.old.items sends.new.items) }
{
    if is_closed(book, held.stream, held.wave) {
        return send_done::<T>(plan, to, held.stream, held.wave, sends);
    }
    Ok(())
}

// Tells a node which waves are closed.
fn tell_closed<T: PrefixTree>(
    plan: &Plan,
    book: &WaveBook,
    held: &[HeldWave<T>],
    to: u32,
    sends: &mut Vec<(u32, Frame)>,
) -> Result<(), AllocError>
    requires plan_waves { AllByRecursion (λ v. HasWave plan.now v.0 v.1) (held_keys held.now) }
    requires keys { held_keys held.now ≡ keys_of book.now }
    requires node { to < nodes plan.now }
    ensures { OnOk result (Sends plan.now (told plan.now (book_of book.now) to (held_keys held.now))
        sends.old.items sends.new.items) }
{
    for wave in held {
        tell_if_closed(plan, book, wave, to, sends)?;
    }
    Ok(())
}

impl<T: PrefixTree> NodeWork<T> {
    /// Another node is a child from now on, and is told which waves are closed.
    pub fn on_attach(&mut self, plan: &Plan, kin: &mut Kin, child: u32) -> Result<(), AllocError>
        requires kin { IsKinOf plan.now kin.old }
        requires under { IsUnder plan.now child kin.old.node }
        requires keys { held_keys self.old.held.items ≡ keys_of self.old.work.book }
        requires waves { held_keys self.old.held.items ≡ waves_at plan.now kin.old.node }
        requires fits { AreHeldFits plan.now kin.old.node (book_of self.old.work.book) self.old.held.items }
        ensures kin { OnOk result (kin.new ≡ record { node = kin.old.node; kin = with_child kin.old.kin child }) }
        ensures fits { OnOk result (IsKinOf plan.now kin.new) }
        ensures steps { OnOk result (Steps plan.now kin.old.node
            (tell plan.now child (held_keys self.old.held.items)) self.old self.new) }
    {
        plan.invariant();
        kin.on_attach(child)?;
        tell_closed(
            plan,
            &self.work.book,
            self.held.as_slice(),
            child,
            &mut self.work.effects.sends,
        )
    }

    // The node hears of a loss. If its parent is lost, it takes another, and nothing counts as sent any more.
    fn take_parent(&mut self, plan: &Plan, kin: &mut Kin, lost: u32) -> Result<(), AllocError>
        requires kin { IsKinOf plan.now kin.old }
        requires related { is_related plan.now kin.old.node lost ≡ true }
        requires not_front { lost ≢ front plan.now }
        requires fits { AreHeldFits plan.now kin.old.node (book_of self.old.work.book) self.old.held.items }
        ensures kin { OnOk result
            (kin.new ≡ record { node = kin.old.node; kin = after_loss plan.now kin.old.node kin.old.kin lost }) }
        ensures kin_fits { OnOk result (IsKinOf plan.now kin.new) }
        ensures steps { OnOk result (Steps plan.now kin.old.node
            (adopt (is_parent kin.old.kin.parent lost) (after_loss plan.now kin.old.node kin.old.kin lost))
            self.old self.new) }
    {
        plan.invariant();
        match kin.on_down(plan, lost)? {
            Reaction::NewParent(parent) => {
                self.work.book.reset_for_parent();
                send_attach::<T>(plan, parent, &mut self.work.effects.sends)
            }
            Reaction::Stay => Ok(()),
        }
    }

    /// The node hears of a loss. If its parent is lost, it takes another, and sends all again. As the loss may have
    /// completed any wave, it does what is due for each.
    pub fn on_down(&mut self, plan: &Plan, kin: &mut Kin, lost: u32) -> Result<(), AllocError>
        requires kin { IsKinOf plan.now kin.old }
        requires related { is_related plan.now kin.old.node lost ≡ true }
        requires not_front { lost ≢ front plan.now }
        requires keys { held_keys self.old.held.items ≡ keys_of self.old.work.book }
        requires distinct { AreDistinct (held_keys self.old.held.items) }
        requires fits { AreHeldFits plan.now kin.old.node (book_of self.old.work.book) self.old.held.items }
        ensures kin { OnOk result
            (kin.new ≡ record { node = kin.old.node; kin = after_loss plan.now kin.old.node kin.old.kin lost }) }
        ensures fits { OnOk result (IsKinOf plan.now kin.new) }
        ensures steps { OnOk result (Steps plan.now kin.old.node
            (receive_step plan.now kin.old.node kin.old.kin (held_keys self.old.held.items) lost Down)
            self.old self.new) }
    {
        self.take_parent(plan, kin, lost)?;
        let context = NodeContext { plan, kin };
        self.act_on_each(&context)
    }
}
