//! Free places for the parts of a kernel.
//!
//! A part needs a run of pages that are all RAM and of which none is taken. The search walks the spans of both sets
//! once, side by side: from the front for the least address, from the back for the greatest. Its time grows with the
//! number of spans of the one set plus that of the other, and never with pages.
#![tactic(auto)]

mod bounds;
mod downwards;
mod search;
mod upwards;

pub use search::{End, find, holes_speak_of_pages};
