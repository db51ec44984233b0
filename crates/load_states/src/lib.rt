//! States of memory from a load to its run.
//!
//! A state owns the memory, the pool, the image and the segments of one load, so nothing acts between two of its calls.
//! `Loaded` has any list. `accept` tests it, and only what it gives can be run: `exec` has no refusal and takes no memory.
//! A plain run leaves each page of the segments what it is to have, and every other page as it was. With context
//! preserved a run exchanges pages, and `back` exchanges them again.
#![tactic(auto)]

mod accepted;
mod crash;
mod filling;
mod hold;
mod lay;
pub mod load_laws;
mod loaded;
mod ran;
mod run;

pub use accepted::{Accepted, AcceptedKept, AcceptedPlain};
pub use crash::{AcceptedCrash, CrashLoaded, load_crash};
pub use filling::{BeginBack, Filling};
pub use lay::rising_pages;
pub use loaded::{Loaded, NotAccepted};
pub use ran::{Back, RanKept, RanPlain};
