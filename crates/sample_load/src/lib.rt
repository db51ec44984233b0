//! Samples: a load that is made from a number alone, so that a whole load and its run can be tried
//! with no file.
//!
//! A number gives 48 draws of a generator, and three draws a segment. The memory and the pool are
//! the same for each number: 16,384 pages, all full, and each of them free once, in an order without
//! runs. So most segments land on pages of the pool, and a load of them makes many exchanges.
//!
//! No number is refused: its segments meet all rules where nothing is known of memory, the pages of
//! the pool differ, and they are as many as any sample takes. So `load_sample` fails for want of
//! memory alone.
#![tactic(auto)]

mod digest;
mod drawn_segments;
mod draws;
mod load;
mod memory;
mod pool;
#[cfg(test)]
mod tests;

pub use digest::digest_of;
pub use load::{load_sample, start_of};

/// The first page of the memory and of the pool.
const FIRST_PAGE: u64 = 0x1000;

/// How many pages the memory and the pool have.
const PAGE_COUNT: u64 = 0x4000;
