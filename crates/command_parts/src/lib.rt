//! What commands share: the memory file, how a kernel starts, the runs of an accepted list, outputs and texts, why a command
//! is refused, and how it ended.
//!
//! | Module | What it has |
//! |---|---|
//! | `reason` | why a command may be refused, and what a take or a make answers |
//! | `status` | how a command ended |
//! | `files` | the memory file, and the limits of the others |
//! | `startup` | how a kernel starts, as a plan or a record tells it |
//! | `counts` | what is told of an accepted list |
//! | `running` | runs of an accepted list |
//! | `output`, `text` | the file of a memory, and the lines that commands say |
#![tactic(auto)]

mod counts;
mod files;
mod output;
mod reason;
mod running;
mod startup;
mod status;
mod text;

pub use counts::ListCounts;
pub use files::{TEXT_LIMIT, take_memory};
pub use output::{memory_output, one_file};
pub use reason::{InputFault, MakeResult, Reason, TakeResult};
pub use running::{Ran, run_accepted, run_loaded};
pub use startup::{PurgatoryPlaces, Startup, purgatory_places};
pub use status::Status;
pub use text::{
    accepted_line, crash_line, crash_lines, crash_ran_text, load_lines, push_ran_line, ran_text,
};
