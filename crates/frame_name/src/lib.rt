//! From a call of a stack, as a debugger prints it, to the frame that a call path shows of it.
#![tactic(auto)]

mod binaries;
mod call;
mod frame;
mod laws;
mod names;
mod plain_text;
mod rules;
mod short_text;
mod source_lines;
mod texts;
mod words;

pub use call::Call;
pub use frame::Frame;
pub use laws::{
    frames_are_good, lines_are_finer, long_names_are_told_apart, names_are_fitted,
    texts_become_plain, versions_are_taken_off, words_fit_texts,
};
pub use plain_text::{is_remark, plain};
pub use rules::Rules;
pub use short_text::fitted;
pub use words::Words;
