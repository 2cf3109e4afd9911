//! What is due for a wave at a node.

ghost use Rattle.std.specs.Prelude.{◌≡◌, IsSome};
ghost use Rattle.stat_plan.specs.Machine.Waves.{ticks};
ghost use Rattle.stat_plan.specs.Plans.{mode, stream_of};
ghost use Rattle.wave_resend.specs.Books.{IsIn, book_of};
ghost use Rattle.overlay_node.specs.Contexts.{FitsAt, IsNodeContext, due_in};

use crate::context::NodeContext;
use crate::held::HeldWave;
use overlay_setup::Mode;
use prefix_tree::PrefixTree;
use stat_plan::{Act, Plan};
use sync_filter::due;
use wave_resend::{WaveBook, WaveState};

// The mode of a stream: when its nodes pass on what they have of a wave.
fn mode_of(plan: &Plan, s: u8) -> Mode
    requires { IsSome (stream_of plan.now s) }
    ensures { result ≡ mode plan.now s }
{
    plan.known_stream(s).mode()
}

// How many ticks a timer of the mode runs.
fn ticks_of(mode: Mode) -> u16
    ensures { result ≡ ticks mode }
{
    match mode {
        Mode::TimeOut(t) => t,
        _ => 0,
    }
}

/// How many ticks a timer of the stream runs.
pub fn ticks_in(plan: &Plan, s: u8) -> u16
    requires { IsSome (stream_of plan.now s) }
    ensures { result ≡ ticks (mode plan.now s) }
{
    ticks_of(mode_of(plan, s))
}

/// What is due for a wave of the node.
pub fn due_for<T: PrefixTree>(context: &NodeContext<'_>, book: &WaveBook, held: &HeldWave<T>) -> Act
    requires context { IsNodeContext context.now }
    requires known { IsIn held.now.stream held.now.wave book.now }
    requires fits { FitsAt context.now book.now held.now }
    ensures { result ≡ due_in context.now held.now.stream (book_of book.now held.now.stream held.now.wave) }
{
    let s = held.stream;
    match book.state(s, held.wave) {
        WaveState::Open {
            covered,
            sent,
            timer,
        } => {
            let complete = context.kin.complete(context.plan, s, covered);
            let front = context.kin.node() == context.plan.front();
            due(
                mode_of(context.plan, s),
                complete,
                covered,
                sent,
                timer,
                front,
            )
        }
        WaveState::Closed => Act::Hold,
    }
}
