//! The top call: a command's words, over files and a text output.
//!
//! Each command is a command over files (`file_commands`), in list_commands or load_commands: what it takes stands in one
//! definition, what it makes of that in another, and both beside its words in `specs/`. How a command is run, and what each
//! of its answers says, is file_commands'. Here they stand in one table (`specs/Commands`).
//!
//! | Module | What it has |
//! |---|---|
//! | `laws` | what commands do together, where they are refused for pages, and how many pages a load uses |
//! | `run`, `calm` | the top call, and the same over files in memory |
#![tactic(auto)]

mod calm;
pub mod laws;
mod run;

pub use calm::kexec_in_memory;
pub use command_parts::{InputFault, Reason, Status};
pub use run::kexec;
