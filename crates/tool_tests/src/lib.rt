//! Tests of the top call, and nothing else: whole calls over a desk and sinks in memory, with worked jobs.
#![tactic(auto)]

#[cfg(test)]
mod call_tests;
#[cfg(test)]
mod calls;
#[cfg(test)]
mod capture_tests;
#[cfg(test)]
mod io_fault_tests;
#[cfg(test)]
mod limited_tree;
#[cfg(test)]
mod long_tests;
#[cfg(test)]
mod mode_tests;
#[cfg(test)]
mod net_tests;
#[cfg(test)]
mod sums_tests;
