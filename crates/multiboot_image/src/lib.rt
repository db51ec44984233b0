//! Kernels in the Multiboot form: where the header is, what the file is loaded as, and the information that the kernel
//! finds at its start.
//!
//! It is the Multiboot Specification 0.6.96. Video modes, symbol tables, drives, APM, VBE and framebuffers are not
//! served.
#![tactic(auto)]

mod fault;
mod header;
mod info;
mod map_rows;
mod modules;
mod parts;

pub use fault::MbFault;
pub use header::{Header, Kludge, find_header};
pub use info::{info_bytes, info_length};
pub use modules::Placed;
pub use parts::{Parts, load_parts};
