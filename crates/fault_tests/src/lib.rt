//! Tests of the top call, and nothing else: many runs, simulations and replays, of jobs that lose nodes, of random
//! jobs, and by several workers.
#![tactic(auto)]

#[cfg(test)]
mod calls;
#[cfg(test)]
mod cast_tests;
#[cfg(test)]
mod loss_tests;
#[cfg(test)]
mod random_tests;
#[cfg(test)]
mod seed_tests;
#[cfg(test)]
mod worker_tests;
