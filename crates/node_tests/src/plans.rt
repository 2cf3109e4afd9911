//! Plans of small jobs, for the tests of this crate.

use stat_plan::Plan;
use std::alloc::Global;
use std::process::Abort;

pub fn plan_of(
    rt: &impl Abort,
    alloc: Global,
    nodes: &[u8],
    samples: &[u8],
    script: &[u8],
) -> Plan {
    let topology = topology_text::read(alloc, nodes).expect(rt, "a topology");
    let samples = sample_text::read(alloc, samples, &topology).expect(rt, "samples");
    let script = script_text::read(alloc, script, &topology).expect(rt, "a script");
    Plan::build(alloc, topology, samples, script).expect(rt, "a plan")
}
