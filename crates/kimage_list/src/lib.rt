//! Lists of page copies, written into memory: a load takes pages from the pool, sets them to the bytes of the new
//! kernel's pages, and writes the list that brings them to their destinations, as the kernel's kexec core does
//! (kimage_add_entry, kimage_alloc_page).
#![tactic(auto)]

mod begin;
pub mod laws;
mod open_list;
mod pages;
mod table;
mod taking;
mod writer;
mod written;

pub use writer::ListWriter;
pub use written::{BeginFault, BeginRefused, Written};
