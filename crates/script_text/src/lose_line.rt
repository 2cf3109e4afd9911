//! What a lose line says.

ghost use Rattle.text_lines.specs.Parsing.{IsValueOf, IsErrorOf};
ghost use Rattle.std.specs.Prelude.{◌≡◌, IfErr, IfOk, Ok, Err, nat_eq};
ghost use Rattle.std.specs.List.{list_any};
ghost use Rattle.script_text.specs.ParserViews.{lose_view};
ghost use Rattle.script_text.specs.Losses.{lost_node, fault_of};

use crate::numbers::number_from;
use crate::words::LoseLine;
use overlay_setup::{FAULT_LIMIT, Fault, Topology};
use text_lines::{Quantity, Reason, TextError};

/// The most events of a node, and frames of a link, that a lose line may speak of.
pub const COUNT_LIMIT: u32 = 65_535;

// Whether a node is among those that are lost.
fn is_lost(faults: &[Fault], node: u32) -> bool
    ensures { result ≡ list_any (λ f. nat_eq f.node node) faults.now }
{
    faults.iter().any(|fault| fault.node == node)
}

// The node that a line loses, where earlier lines lose others.
#[tactic(auto, unfolding(crate::specs::Losses::lost_node))]
fn lost_node(
    topology: &Topology,
    faults: &[Fault],
    line_number: u64,
    name: &[u8],
) -> Result<u32, TextError>
    ensures ok { IsValueOf result (lost_node topology.now faults.now line_number name.now) }
    ensures err { IfErr result (λ e. lost_node topology.now faults.now line_number name.now ≡ Err e) }
{
    if faults.len() >= FAULT_LIMIT as usize {
        return Err(TextError::over(line_number, Quantity::Faults, FAULT_LIMIT));
    }
    let Some(n) = topology.number_of(name) else {
        return Err(TextError::bad(line_number, Reason::UnknownNode));
    };
    if n == topology.front() {
        return Err(TextError::bad(line_number, Reason::LosesFront));
    }
    if is_lost(faults, n) {
        return Err(TextError::bad(line_number, Reason::SecondLoss));
    }
    Ok(n)
}

/// The loss that a line says, where earlier lines lose others.
pub fn fault_of(
    topology: &Topology,
    faults: &[Fault],
    line_number: u64,
    words: &LoseLine<'_>,
) -> Result<Fault, TextError>
    ensures ok { IsValueOf result (fault_of topology.now faults.now line_number (lose_view words.now)) }
    ensures err { IfErr result (λ e. fault_of topology.now faults.now line_number (lose_view words.now) ≡ Err e) }
{
    let node = lost_node(topology, faults, line_number, words.name)?;
    let after = number_from(
        line_number,
        0,
        COUNT_LIMIT,
        TextError::bad(line_number, Reason::BadNumber),
        words.after,
    )?;
    let keep = number_from(
        line_number,
        0,
        COUNT_LIMIT,
        TextError::bad(line_number, Reason::BadNumber),
        words.keep,
    )?;
    Ok(Fault { node, after, keep })
}
