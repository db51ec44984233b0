//! Memory images: what each page holds, by its number, and the memory file.
//!
//! A page has 4,096 bytes. A page that is not held reads as zeros. The bytes lie in one buffer, each page in a frame of its
//! own; a table says at which place the frame of a page begins. The buffer is laid out as a memory file all the
//! time, with pages in the order in which they came to be held: so the buffer of a memory that was read is its file, and
//! a file can be made in the buffer in which the pages lie. No contract tells this: a memory is seen as a map from held
//! pages to their bytes, and a number of sets, which only `set` and `set_word` raise.
#![tactic(auto)]

mod buffer;
mod fault;
mod file;
mod in_place;
mod layout;
mod memory;
mod pieces;
mod table;

pub use fault::{HeavyFault, MemFault};
pub use file::{agreeing_have_one_file, reads_back};
pub use memory::Memory;
