//! The ELF headers that a crash kernel finds the memory of its predecessor by.
//!
//! They are those of an ELF64 core file (ELF gABI, chapters 4 and 5) as Linux hands them to a crash kernel by
//! `elfcorehdr=`: the file header, a PT_NOTE for each processor's notes, and a PT_LOAD for each range of System RAM
//! that is outside the crash areas. Each row's place in the file is its physical address.
#![tactic(auto)]

mod fault;
mod headers;
mod note;
mod program_header;
mod ranges;

pub use fault::{CrashFault, NoteFault};
pub use headers::{length, make};
pub use note::{Note, read_notes};
