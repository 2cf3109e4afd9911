//! Where a node of a net is.

ghost use Rattle.std.specs.Prelude.{◌≡◌, ◌<◌, Some, length, slice_get, slice_set};
ghost use Rattle.overlay_event.specs.Events.{event_node};
ghost use Rattle.overlay_node.specs.NodeViews.{NodeView};
ghost use Rattle.overlay_net.specs.Places.{at_home, away, place_view, places_view};

use overlay_event::Event;
use overlay_node::Node;
use packet_frame::Frame;
use prefix_tree::PrefixTree;
use std::mem;
use std::snapshot::Snapshot;

/// Where a node is.
#[derive(Drop)]
pub enum Place<T: PrefixTree> {
    /// At home.
    Home(Node<T>),
    /// Out with this event. Contracts see the node, and the frame that it took along, as they went out.
    Out(Event, Snapshot<Node<T>>, Snapshot<Option<Frame>>),
}

impl<T: PrefixTree> Place<T> {
    /// The event with which the node is out, if it is out.
    pub fn event(&self) -> Option<Event>
        ensures { result ≡ (place_view self.now).out }
    {
        match self {
            Place::Home(_) => None,
            Place::Out(event, _, _) => Some(*event),
        }
    }
}

/// Takes an event's node, which is at home, out of its place.
pub fn leave<T: PrefixTree>(places: &mut [Place<T>], event: Event, frame: &Option<Frame>) -> Node<T>
    requires { (x : NodeView) × (slice_get (places_view places.old) (event_node event) ≡ Some (at_home x)) }
    ensures node { slice_get (places_view places.old) (event_node event) ≡ Some (at_home result) }
    ensures places { places_view places.new
        ≡ slice_set (places_view places.old) (event_node event) (away event result frame.now) }
    ensures count { length places.new ≡ length places.old }
{
    let place = &mut places[event.node() as usize];
    let Place::Home(node) = place else {
        unreachable!()
    };
    let out = Place::Out(event, Snapshot::of(node), Snapshot::of(frame));
    let Place::Home(node) = mem::replace(place, out) else {
        unreachable!()
    };
    node
}

/// Brings an event's node home.
pub fn come_home<T: PrefixTree>(places: &mut [Place<T>], event: Event, node: Node<T>)
    requires { event_node event < length places.old }
    ensures places { places_view places.new
        ≡ slice_set (places_view places.old) (event_node event) (at_home node) }
    ensures count { length places.new ≡ length places.old }
{
    places[event.node() as usize] = Place::Home(node);
}
