//! The commands that load kernels, and those beside them that take no load: samples, events and core files.
//!
//! | Module | What it has |
//! |---|---|
//! | `files` | the files beside the memory: their limits and readers |
//! | `inputs`, `load_inputs` | what a load is made of, by its names, and the request for a plan |
//! | `loading`, `crash_loading` | a plan and its load; the same of a crash kernel, which is put in its place and never moves |
//! | `boot`, `boot_resident`, `load`, `load_panic`, `sample`, `drill`, `core_file` | a command each |
//! | `drill_inputs` | what `drill` takes, which holds a fact of it |
//! | `replies` | the lines of the replies of `drill` |
#![tactic(auto)]

mod boot;
mod boot_resident;
mod core_file;
mod crash_loading;
mod drill;
mod drill_inputs;
mod files;
mod inputs;
mod load;
mod load_inputs;
mod load_panic;
mod loading;
mod replies;
mod sample;

pub use boot::run_boot;
pub use boot_resident::run_boot_resident;
pub use core_file::run_core;
pub use drill::run_drill;
pub use load::run_load;
pub use load_panic::run_load_panic;
pub use sample::run_sample;
