//! Tests of the texts that are read and written, and nothing else. Each module has the tests of the library with its
//! name, and `plans` has what several of them use.
#![tactic(auto)]

#[cfg(test)]
mod front_end_tests;
#[cfg(test)]
mod generated_job_tests;
#[cfg(test)]
mod journal_text_tests;
#[cfg(test)]
mod plans;
#[cfg(test)]
mod sample_text_tests;
#[cfg(test)]
mod script_text_tests;
#[cfg(test)]
mod stat_words_tests;
#[cfg(test)]
mod text_lines_tests;
#[cfg(test)]
mod topology_text_tests;
#[cfg(test)]
mod value_text_tests;
