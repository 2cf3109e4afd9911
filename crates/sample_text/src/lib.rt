//! Reads samples: lines `daemon NAME RANKS`, which place ranks on a daemon, and `stack TIME RANKS PATH`, which say what
//! placed ranks were doing.
//!
//! Lines that are empty, hold only spaces and tabs, or begin with `#` say nothing. `samples_of_text` says what a text
//! means, or its first error, and [`read`] gives exactly that.
#![tactic(auto)]

ghost use Rattle.std.specs.Prelude.{◌≡◌, IfOk, Ok};
ghost use Rattle.stat_plan.specs.Invariants.{SamplesFit};
ghost use Rattle.stat_plan.specs.Plans.{Sampled};
ghost use Rattle.text_lines.specs.Parsing.{IsValueOf, IsErrorOf};
ghost use Rattle.sample_text.specs.Grammar.{IsAcceptable};
ghost use Rattle.sample_text.specs.Whole.{samples_of_text};

mod feeder;
mod parser;
mod paths;
mod words;

pub use feeder::Feeder;
use overlay_setup::Topology;
use stat_desk::Feed;
use stat_plan::Samples;
use std::alloc::Global;
use text_lines::TextError;

/// Reads samples of the nodes of a topology. A text is refused by its first error, read from the front line by line,
/// and then by line 0 where a daemon has no rank. While memory lasts, exactly those texts are accepted of which each
/// line says nothing, places ranks on a daemon for the first time, or gives a sample of ranks that are placed before
/// it, with at most 262,144 samples and a rank for each daemon: `IsAcceptable`. Each rank is on the node where some
/// `daemon` line places it, and the samples are those of the `stack` lines, in order: `IsWritten`.
pub fn read(alloc: Global, text: &[u8], topology: &Topology) -> Result<Samples, TextError>
    ensures ok { IsValueOf result (samples_of_text topology.now text.now) }
    ensures written { IfOk result (λ samples. IsAcceptable topology.now text.now samples) }
    ensures fits { IfOk result (λ samples. SamplesFit topology.now samples) }
    ensures err { IsErrorOf result (samples_of_text topology.now text.now) }
    ensures accepted { (samples : Sampled) → IsAcceptable topology.now text.now samples →
        samples_of_text topology.now text.now ≡ Ok samples }
{
    topology.invariant();
    let mut feeder = Feeder::new(alloc, topology)?;
    feeder.feed(text);
    feeder.finish()
}
