//! The text of a report.

ghost use Rattle.std.specs.Prelude.{◌≡◌, ◌≤◌, ◌<◌, ◌+◌, ◌++◌, ◌==◌, false, filter, IfOk, OnOk};
ghost use Rattle.std.specs.List.{AllByRecursion, flat_map, list_any};
ghost use Rattle.stat_plan.specs.Plans.{nodes, ranks_on};
ghost use Rattle.control_cast.specs.CastViews.{cast_state};
ghost use Rattle.control_cast.specs.Machine.{seen};
ghost use Rattle.cast_text.specs.CastText.{command_line, command_lines, daemon_line, daemons_of, has_obeyed, ranks_text, report_text};
ghost use Rattle.cast_text.specs.CastText.{fate_text as text_of_fate};

use control_cast::CastNet;
use rank_set::RankSet;
use stat_plan::Plan;
use std::alloc::{AllocError, Global};
use tree_text::write_numbered;

/// The daemons, by number.
fn daemons_of(alloc: Global, plan: &Plan) -> Result<Vec<u32>, AllocError>
    ensures value { IfOk result (λ daemons. daemons.items ≡ daemons_of plan.now) }
    ensures nodes { IfOk result (λ daemons. AllByRecursion (λ d. d < nodes plan.now) daemons.items) }
{
    let mut daemons = Vec::new(alloc);
    for n in 0..plan.nodes() {
        if plan.is_daemon(n) {
            daemons.push(n)?;
        }
    }
    Ok(daemons)
}

/// The ranks of those daemons that obeyed a command.
fn ranks_that_obeyed(
    alloc: Global,
    net: &CastNet<'_>,
    daemons: &[u32],
    command: u32,
) -> Result<RankSet, AllocError>
    requires usable { net.now.failed ≡ false }
    requires nodes { AllByRecursion (λ d. d < nodes net.now.plan) daemons.now }
    requires first { 1 ≤ command }
    ensures { IfOk result (λ set. set
        ≡ ranks_on net.now.plan (filter (λ d. has_obeyed (cast_state net.now) d command) daemons.now)) }
{
    let mut set = RankSet::new(alloc);
    for d in daemons {
        if command as usize <= net.obeyed(*d).len() {
            set.union_into(net.plan().ranks(*d))?;
        }
    }
    Ok(set)
}

/// Whether one of the daemons obeyed just this many commands.
fn any_stopped(net: &CastNet<'_>, daemons: &[u32], count: u32) -> bool
    requires usable { net.now.failed ≡ false }
    requires nodes { AllByRecursion (λ d. d < nodes net.now.plan) daemons.now }
    ensures { result ≡ list_any (λ d. seen (cast_state net.now) d == count) daemons.now }
{
    for d in daemons {
        if net.obeyed(*d).len() == count as usize {
            return true;
        }
    }
    false
}

/// Appends the line of a command, where these are the ranks that obeyed it, as a text.
fn write_command(command: u32, ranks: &[u8], out: &mut Vec<u8>) -> Result<(), AllocError>
    ensures { OnOk result (out.new.items ≡ out.old.items ++ command_line command ranks.now) }
{
    write_numbered(b"command ", command, out)?;
    out.extend_from_slice(b" ranks ")?;
    out.extend_from_slice(ranks)?;
    out.push(b'\n')?;
    Ok(())
}

/// The text of the ranks of the command after the `i`-th, where `ranks` is that of the `i`-th: the same where no daemon
/// stopped after the `i`-th.
fn next_ranks(
    net: &CastNet<'_>,
    daemons: &[u32],
    i: u32,
    ranks: Vec<u8>,
) -> Result<Vec<u8>, AllocError>
    requires usable { net.now.failed ≡ false }
    requires daemons { daemons.now ≡ daemons_of net.now.plan }
    requires nodes { AllByRecursion (λ d. d < nodes net.now.plan) daemons.now }
    requires small { i < 1000 }
    requires before { 0 < i → ranks.items ≡ ranks_text net.now.plan (cast_state net.now) i }
    ensures { IfOk result (λ text. text.items ≡ ranks_text net.now.plan (cast_state net.now) (i + 1)) }
{
    if i > 0 && !any_stopped(net, daemons, i) {
        return Ok(ranks);
    }
    let mut text = Vec::new(*ranks.allocator());
    let set = ranks_that_obeyed(*ranks.allocator(), net, daemons, i + 1)?;
    set.write_text(&mut text)?;
    Ok(text)
}

/// Appends a line for each command.
fn write_commands(net: &CastNet<'_>, daemons: &[u32], out: &mut Vec<u8>) -> Result<(), AllocError>
    requires usable { net.now.failed ≡ false }
    requires daemons { daemons.now ≡ daemons_of net.now.plan }
    requires nodes { AllByRecursion (λ d. d < nodes net.now.plan) daemons.now }
    ensures { OnOk result
        (out.new.items ≡ out.old.items ++ command_lines net.now.plan (cast_state net.now) net.now.commands) }
{
    let mut ranks = Vec::new(*out.allocator());
    for i in 0..net.commands() {
        ranks = next_ranks(net, daemons, i, ranks)?;
        write_command(i + 1, ranks.as_slice(), out)?;
    }
    Ok(())
}

/// What is said behind a daemon.
fn fate_text(is_lost: bool) -> &'static [u8]
    ensures { result.now ≡ text_of_fate is_lost }
{
    if is_lost { b" lost" } else { b"" }
}

/// Appends the line of a daemon.
fn write_daemon(net: &CastNet<'_>, daemon: u32, out: &mut Vec<u8>) -> Result<(), AllocError>
    requires usable { net.now.failed ≡ false }
    requires node { daemon < nodes net.now.plan }
    ensures { OnOk result (out.new.items ≡ out.old.items ++ daemon_line net.now.plan (cast_state net.now) daemon) }
{
    out.extend_from_slice(b"daemon ")?;
    out.extend_from_slice(net.plan().name(daemon).as_bytes())?;
    write_numbered(b" obeyed ", net.obeyed(daemon).len(), out)?;
    out.extend_from_slice(fate_text(net.is_lost(daemon)))?;
    out.push(b'\n')?;
    Ok(())
}

/// Appends a line for each daemon.
fn write_daemons(net: &CastNet<'_>, daemons: &[u32], out: &mut Vec<u8>) -> Result<(), AllocError>
    requires usable { net.now.failed ≡ false }
    requires nodes { AllByRecursion (λ d. d < nodes net.now.plan) daemons.now }
    ensures { OnOk result
        (out.new.items ≡ out.old.items ++ flat_map (daemon_line net.now.plan (cast_state net.now)) daemons.now) }
{
    for daemon in daemons {
        write_daemon(net, *daemon, out)?;
    }
    Ok(())
}

/// The report of a cast: for each command `command I ranks SET`, with the ranks of all daemons that obeyed it, lost
/// ones too; for each daemon, by number, `daemon NAME obeyed SEEN`, and behind it ` lost` where it is lost; and `end`.
///
/// # Errors
///
/// Out of memory.
pub fn report_text(alloc: Global, net: &CastNet<'_>) -> Result<Vec<u8>, AllocError>
    requires { net.now.failed ≡ false }
    ensures { IfOk result
        (λ text. text.items ≡ report_text net.now.plan net.now.commands (cast_state net.now)) }
{
    let daemons = daemons_of(alloc, net.plan())?;
    let mut out = Vec::new(alloc);
    write_commands(net, daemons.as_slice(), &mut out)?;
    write_daemons(net, daemons.as_slice(), &mut out)?;
    out.extend_from_slice(b"end\n")?;
    Ok(out)
}
