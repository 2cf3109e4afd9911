//! What a node does about a wave that is open: hold back what has come in, start the wave's timer, or pass it on.
//!
//! [`due`] decides it from the stream's mode, from what has come in and was passed on, and from the wave's timer. It
//! takes no memory and changes nothing: the caller performs the [`Act`].
//!
//! ```text
//! match due(mode, complete, &covered, &sent, timer, is_front) {
//!     Act::Hold => {}
//!     Act::Arm => // start the timer
//!     Act::Send => // send what has come in to the parent
//!     Act::Partial => // release it, and go on
//!     Act::Final => // release it, and close the wave
//! }
//! ```
//!
//! The rule is the due table of the machine, `due_act` in `stat_plan`'s `specs/Machine/Due.antt`. A contract sees the
//! two sets only by whether they differ (`has_grown`).
#![tactic(auto)]

ghost use Rattle.stat_plan.specs.Machine.Due.{due_act};
ghost use Rattle.stat_plan.specs.Machine.Waves.{has_grown};
ghost use Rattle.std.specs.Prelude.{◌≡◌};

use overlay_setup::Mode;
use rank_set::RankSet;
use stat_plan::{Act, Timer};

/// What is due for a wave. `complete` says whether all has come in that still can, `covered` are the ranks that have
/// come in, `sent` those that were passed on, and `is_front` says whether the node is the front end.
pub fn due(
    mode: Mode,
    complete: bool,
    covered: &RankSet,
    sent: &RankSet,
    timer: Timer,
    is_front: bool,
) -> Act
    ensures { result ≡ due_act mode complete (has_grown covered.now sent.now) is_front timer }
{
    let grown = is_grown(covered, sent);
    let passed_on = if is_front { Act::Partial } else { Act::Send };
    match mode {
        _ if complete && is_front => Act::Final,
        Mode::WaitForAll if complete && grown => Act::Send,
        Mode::DontWait if grown => passed_on,
        Mode::TimeOut(_) if complete && grown => Act::Send,
        Mode::TimeOut(_) if grown => match timer {
            Timer::Off => Act::Arm,
            Timer::Running(_) => Act::Hold,
            Timer::Fired => passed_on,
        },
        _ => Act::Hold,
    }
}

/// Whether something has come in that wasn't passed on.
fn is_grown(covered: &RankSet, sent: &RankSet) -> bool
    ensures { result ≡ has_grown covered.now sent.now }
{
    !covered.equals(sent)
}
