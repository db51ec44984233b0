//! The words behind a command, each with the name that the table gives it, and the sentence about words that are refused.
//!
//! kexec_words decides whether words are taken, and says of a refusal no more than its reason. For people a sentence must
//! name the word that stood there, and what must stand there: so the words are read once more, by the same table, up to
//! the first that the command does not take.
#![tactic(auto)]

mod asking;
mod files;
mod given;
mod lookup;
mod mistake;
mod old_words;
mod refusal;

pub use asking::{asks_for_help, asks_for_version};
pub use given::{Answer, Given, read_answer, text_of};
pub use mistake::Mistake;
pub use refusal::{Refusal, meant_of};
