//! Tests of what leads from a debugger's text to call paths, and nothing else: with ample memory each call succeeds, and
//! real stacks have the paths that the samples made of them have.
#![tactic(auto)]

#[cfg(test)]
mod path_tests;
