//! What a load leaves, and why one is not begun.

use kx_pages::Image;
use page_memory::Memory;
use page_pool::Pool;
use thiserror::Error;

/// A list that is written.
#[derive(Drop)]
pub struct Written {
    /// The memory in which the list and the bytes of the new kernel's pages lie.
    pub memory: Memory,
    /// The pool without the pages that the load has drawn: those that are not usable stay in it. None is filed.
    pub pool: Pool,
    /// What running the list takes.
    pub image: Image,
}

/// Why a list is not begun (this project's own reasons).
#[derive(Clone, Copy, Debug, Error)]
pub enum BeginFault {
    /// There is no memory for the table of the wanted pages, or for the pages that the load sets.
    #[error("out of memory")]
    Memory,
    /// The pool has `pool` usable pages left, and the load takes `need`, which is more.
    #[error("the pool has {pool} usable pages left and the load takes {need}: give the pool more pages")]
    NoPages { pool: u64, need: u64 },
}

/// A list that is not begun.
#[derive(Drop)]
pub struct BeginRefused {
    /// The memory that was handed in: it reads as before, though some pages that the load takes may be held.
    pub memory: Memory,
    /// The pool that was handed in, as it was.
    pub pool: Pool,
    /// The reason.
    pub why: BeginFault,
}
