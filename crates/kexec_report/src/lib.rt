//! What the program says when it ends, and its exit status: why a command was refused, in one sentence that names the file,
//! the option or the word; or the help or the version, where these were asked for.
//!
//! It knows the words, how the command ended (`Status`), and what the edge keeps of a call that failed. So that a sentence
//! can say more than the status does, the refused file is looked at once more.
//!
//! | Module | What it has |
//! |---|---|
//! | `words` | the words of the command line, as the system gives them |
//! | `ending` | the exit status, and what is said |
//! | `report` | the sentence about a command that was refused |
//! | `files` | which file or word it is about |
//! | `causes` | why a file or standard output failed |
//! | `fronts` | what the front of the refused file shows that it is |
//! | `outside` | the first page of a kernel that is not System RAM |
//! | `plans`, `remedies` | the sentences about a request without a plan, and what helps |
#![tactic(auto)]

mod causes;
mod ending;
mod files;
mod fronts;
mod outside;
mod plans;
mod remedies;
mod report;
mod words;

pub use causes::Failure;
pub use ending::{Ending, Notice};
pub use words::{LONGEST_NAME, WordsError, name_called, read_words};
