//! Tests of the words that no scene can have: that two readers of them judge alike. Which command words are, why they are
//! refused and the sentence about it are shown by crates/scenes/data/words.scenes, and the help by docs/help, which
//! scripts/help-texts compares.
//!
//! Tests that call only what their crates export stand in crates of their own: a build of tests proves their crate once
//! more, and so the crates are proved once.
//!
//! | Module | What it has |
//! |---|---|
//! | `agreement_tests` | that kexec_words and kexec_usage judge words alike |
#![tactic(auto)]

#[cfg(test)]
mod agreement_tests;
