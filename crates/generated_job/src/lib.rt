//! The generated job: from a seed and a size the three texts of a job, the plan that they are read as, and the summary
//! of a run of it.
//!
//! A job of size Z has Z daemons, a middle node for each 16 of them, and a front end; 64 ranks on each daemon; and two
//! lines of samples for each rank. The readers of texts accept what is written here, so making the plan can only fail
//! where memory runs out.
#![tactic(auto)]

mod laws;
mod numbered;
mod plan;
mod run_summary;
mod texts;

pub use laws::{
    parts_are_read_back, plans_are_so_large, streams_have_one_line, summaries_are_of_journals,
    texts_are_read, waves_have_few_prefixes,
};
pub use plan::generated_plan;
pub use run_summary::summary;
pub use texts::{SIZE_LIMIT, make_samples, make_script, make_topology};
