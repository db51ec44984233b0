//! Tests over the top call that no scene can have: growth of memory that is refused, the call over files in memory alone, and
//! the logs of the call that the program makes. All other commands are scenes (docs/SCENES.md), but for files and memories
//! of hundreds of MB, which scripts/limits tries.
//!
//! Tests that call only what their crates export stand in crates of their own: a build of tests proves their crate once
//! more, and so the crates are proved once.
//!
//! | Module | What it has |
//! |---|---|
//! | `scene` | files in memory, and a command over them |
//! | `first_example` | the files of the first example, and what is made of them |
//! | `in_memory_tests` | the call over files in memory alone |
//! | `call_log_tests`, `host_log_tests` | the first example over devices that keep a log, and a log over the host's files |
//! | `refused_memory_tests` | each growth of memory is refused |
#![tactic(auto)]

#[cfg(test)]
mod call_log_tests;
#[cfg(test)]
mod first_example;
#[cfg(test)]
mod host_log_tests;
#[cfg(test)]
mod in_memory_tests;
#[cfg(test)]
mod refused_memory_tests;
#[cfg(test)]
mod scene;
