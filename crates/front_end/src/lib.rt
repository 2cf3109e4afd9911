//! Writes reports: the releases of a run, each with its merged tree and the classes of ranks of like behaviour, and
//! what came of the faults of the script.
//!
//! [`report_text`] writes the report of a run, [`direct_text`] that of direct releases, [`view_text`] what a view keeps
//! of each release, and [`sums_text`] what numbers of the ranks come to. Each has its like for JSON.
//!
//! ```text
//! let text = report_text(alloc, &plan, net.releases(), &lost)?;
//! ```
//!
//! The releases may be given in any order; they are written by stream, wave and number. A contract sees a text as a
//! report of releases (`IsReport` in `specs/Report.antt`, `IsJsonReport` in `specs/JsonReport.antt`). What a release's
//! text is stands in `specs/ReleaseText.antt`, and its JSON in `specs/JsonValues.antt`. That the releases of a run have
//! one report, and that it is the report of the direct merge where all streams wait, are the laws of `laws.rt`.
#![tactic(auto)]

mod class_text;
mod json_release;
mod json_report;
mod json_sums;
mod json_tree;
mod json_view;
mod laws;
mod release_text;
mod report;
mod sums_report;
mod view_report;

pub use json_report::{direct_json, release_json, report_json};
pub use json_sums::sums_json;
pub use json_view::view_json;
pub use laws::{
    classes_of_a_tree, direct_releases_are_distinct, numbered_releases_are_distinct,
    ordered_releases_are_in_order, reports_are_one, waiting_reports_are_direct,
};
pub use release_text::write_release;
pub use report::{direct_text, report_text};
pub use sums_report::sums_text;
pub use view_report::view_text;
