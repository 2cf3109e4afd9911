//! What the loss of a node does to the links.

ghost use Rattle.std.specs.Prelude.{◌≡◌, length};
ghost use Rattle.stat_plan.specs.Plans.{fault, nodes};
ghost use Rattle.stat_plan.specs.Machine.Overlays.{keep_of};
ghost use Rattle.overlay_net.specs.Losses.{AreCutBy};

use node_inbox::{Inbox, cut_all};
use overlay_event::Event;
use packet_frame::Frame;
use stat_plan::Plan;

// How many of the first packets on each link out of a node stay when it is lost.
fn kept(plan: &Plan, n: u32) -> u32
    ensures { result ≡ keep_of (fault plan.now n) }
{
    match plan.fault(n) {
        Some(fault) => fault.keep,
        None => 0,
    }
}

/// What an event does to all inboxes if it is a loss: of what waits from the lost node the first packets stay, and for
/// it nothing waits.
pub fn cut_links(plan: &Plan, event: Event, inboxes: &mut [Inbox<Frame>])
    requires { length inboxes.old ≡ nodes plan.now }
    ensures cut { AreCutBy plan.now event inboxes.old inboxes.new }
    ensures count { length inboxes.new ≡ length inboxes.old }
{
    if let Event::Lose { node } = event {
        cut_all(node, kept(plan, node), inboxes);
    }
}
