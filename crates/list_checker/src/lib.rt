//! Which lists of page copies are accepted.
//!
//! A list is a head word and the words that follow it in memory, as the Linux kernel's kexec core writes them. The
//! checker reads the list in the memory before the run, and answers that a run leaves each page of the segments
//! what it is to have, or the first word that has a fault, and why.
#![tactic(auto)]

ghost use Rattle.list_checker.specs.inner.Laws.{CheckExact, CheckEnds, OneWalk};

mod crash;
mod earlier;
mod fault;
mod list;
mod missing;
mod reading;
mod reasons;
mod walked;

pub use crash::{check_crash, head_reason};
pub use earlier::{Accept, Pair};
pub use fault::{CheckFault, ListFault, Why};
pub use list::check;
pub use reading::walk;
pub use walked::Walk;

/// No word has a fault exactly where the list is accepted: a law about the definitions.
pub fn check_is_exact()
    ensures { CheckExact }
{}

/// Each memory and head has an accepted walk or one first fault, and not both: a law about the definitions.
pub fn check_ends()
    ensures { CheckEnds }
{}

/// A head has at most one walk in a memory: a law about the definitions.
pub fn one_walk()
    ensures { OneWalk }
{}
