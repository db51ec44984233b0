//! The segments of a new kernel, the rules that they meet, and what each page is to have.
//!
//! A segment is bytes, an address, and the number of bytes of memory from there on, as in kexec_load(2). The pages of
//! all segments are the destinations of a load.
#![tactic(auto)]

mod fault;
mod list;
mod rules;
mod segment;

pub use fault::{Kind, SegFault};
pub use list::Segments;
pub use segment::Segment;
