//! Worked jobs for the tests of the top call: their files and reports, and desks that have the files. Nothing but tests
//! stands on it, so its functions have no contracts.
#![tactic(auto)]

pub mod desks;
pub mod gates;
pub mod jobs;
