//! The nodes of a net: which of them live, where each is, and what waits for it.

ghost use Rattle.std.specs.Prelude.{◌≡◌, false, length};
ghost use Rattle.std.specs.List.{list_any};
ghost use Rattle.overlay_setup.specs.NodeSets.{up_to};
ghost use Rattle.event_claims.specs.Claims.{is_loss_of, receives_from};
ghost use Rattle.node_inbox.specs.Sends.{is_alive};
ghost use Rattle.overlay_net.specs.Events.{NoneIsLosing};
ghost use Rattle.overlay_net.specs.Places.{events_out};
ghost use Rattle.overlay_net.specs.States.{AreLossesCounted};

use crate::place::Place;
use count_tree::CountTree;
use node_inbox::Inbox;
use overlay_event::Event;
use packet_frame::Frame;
use prefix_tree::PrefixTree;

/// The nodes of a net, each by its number.
#[derive(Drop)]
pub struct NetNodes<T: PrefixTree> {
    /// Whether each node lives.
    pub alive: Vec<bool>,
    /// Where each node is: at home, or out with an event.
    pub places: Vec<Place<T>>,
    /// What waits for each node.
    pub inboxes: Vec<Inbox<Frame>>,
    /// 1 for a node that is out with its loss, and else 0.
    pub losing: CountTree,
}

impl<T: PrefixTree> NetNodes<T> {
    /// Whether a node lives. A number that is no node's doesn't.
    pub fn is_up(&self, n: u32) -> bool
        ensures { result ≡ is_alive self.now.alive.items n }
    {
        let i = n as usize;
        i < self.alive.len() && self.alive[i]
    }

    /// Whether a node is out with its loss.
    pub fn is_losing(&self, n: u32) -> bool
        ensures { result ≡ is_loss_of (events_out self.now.places.items n) n }
    {
        let i = n as usize;
        i < self.places.len() && is_loss(self.places[i].event(), n)
    }

    /// Whether any node is out with its loss.
    pub fn any_losing(&self) -> bool
        requires { AreLossesCounted self.now }
        ensures { result ≡ false → NoneIsLosing (events_out self.now.places.items) }
    {
        self.losing.total() > 0
    }

    /// Whether a node is out with a frame of this sender.
    pub fn is_received_from(&self, sender: u32) -> bool
        ensures { result ≡ list_any (λ k. receives_from (events_out self.now.places.items k) sender)
            (up_to (length self.now.places.items)) }
    {
        for place in &self.places {
            if is_receipt(place.event(), sender) {
                return true;
            }
        }
        false
    }
}

/// Whether this is the loss of a node.
fn is_loss(event: Option<Event>, n: u32) -> bool
    ensures { result ≡ is_loss_of event n }
{
    matches!(event, Some(Event::Lose { node }) if node == n)
}

/// Whether this receives a frame of the sender.
fn is_receipt(event: Option<Event>, sender: u32) -> bool
    ensures { result ≡ receives_from event sender }
{
    matches!(event, Some(Event::Recv { from, .. }) if from == sender)
}
