//! Reports of which several threads write the releases.
//!
//! [`wide_text`] and [`wide_json`] give the reports of `front_end`, byte for byte. The releases are cut in halves, and
//! each half again, as long as there is a thread for each part. One thread writes a part, and two parts are joined where
//! both threads have ended. Where no thread can be made, one thread writes both halves, one after the other.
//!
//! ```text
//! let report = WideReport { alloc, plan: &plan, shows_faults: false, lost: &[], workers: 4 };
//! let text = wide_text(&rt, &report, releases)?;
//! ```
//!
//! The definitions are in `specs/Pieces.antt`.
#![tactic(auto)]

mod ends;
mod parts;
mod report;

pub use report::{WideReport, wide_json, wide_text};
