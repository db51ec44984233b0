//! Tests of what the program says when it ends (kexec_report) that no scene can have: a scene tells the sentence of a command
//! (docs/SCENES.md).
//!
//! | Module | What it has |
//! |---|---|
//! | `ending_tests` | devices that fail as no file of a scene does, files that several words give, and want of memory |
//! | `file_tests` | files of the host that cannot be read or written |
//! | `changed_tests` | files that were changed before they are looked at once more |
//! | `words_tests` | the words as the system gives them |
//! | `told` | what these need: words, and how a command with them ends |
#![tactic(auto)]

#[cfg(test)]
mod changed_tests;
#[cfg(test)]
mod ending_tests;
#[cfg(test)]
mod file_tests;
#[cfg(test)]
mod told;
#[cfg(test)]
mod words_tests;
