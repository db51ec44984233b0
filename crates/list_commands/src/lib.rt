//! The commands on lists and records: they take a memory, and mostly the record of a load in it, and need no plan.
//!
//! | Module | What it has |
//! |---|---|
//! | `records` | the files of a load: its memory and its record |
//! | `check`, `dump`, `exec`, `trace`, `migrate` | a command each |
//! | `crash_exec` | `exec` of a crash kernel, which lies in its place and never moves |
//! | `read_record` | what `migrate` takes, which holds a fact of it |
#![tactic(auto)]

mod check;
mod crash_exec;
mod dump;
mod exec;
mod migrate;
mod read_record;
mod records;
mod trace;

pub use check::run_check;
pub use dump::run_dump;
pub use exec::run_exec;
pub use migrate::run_migrate;
pub use records::{CrashFiles, LoadFiles, TakenLoad};
pub use trace::run_trace;
