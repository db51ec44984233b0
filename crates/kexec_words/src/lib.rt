//! Reads the words of a `kexec` command line: which command, which files, which numbers, or the first reason to refuse them.
#![tactic(auto)]

mod commands;
mod faults;
mod given;
mod naming;
mod numbers;
mod parsing;
mod planned;
mod reading;
mod unplanned;

pub use commands::{
    Boot, BootResident, Command, Core, CrashInputs, Drill, Exec, Inputs, Load, LoadNames,
    LoadPanic, Migrate, Runs, Trace,
};
pub use faults::WordsFault;
pub use reading::read;
