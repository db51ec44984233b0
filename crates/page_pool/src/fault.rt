//! Why pages are no pool.

ghost use Rattle.std.specs.Prelude.{◌≡◌};

use kx_pages::Page;
use std::alloc::{AllocError, AllocFailed};
use thiserror::Error;

/// Why a text or a list of pages is no pool. Lines are numbered from 1.
#[derive(Clone, Copy, Debug, Error)]
pub enum PoolFault {
    /// Memory ran out.
    #[error("out of memory")]
    Memory,
    /// This line is neither a page number nor a first and a last one, in hexadecimal.
    #[error("line {line} of the pool file is neither a page number nor first-last in hexadecimal")]
    BadLine { line: u64 },
    /// This line's last page is below its first.
    #[error("the last page of line {line} of the pool file is below its first page")]
    Backwards { line: u64 },
    /// This line names a page number that is 2^34 or more.
    #[error("line {line} of the pool file names a page that is not below 0x400000000")]
    PastLimit { line: u64 },
    /// With this line's pages there are more than 262,144.
    #[error("the pool file has more than 262144 pages by line {line}, and at most that many are allowed")]
    TooMany { line: u64 },
    /// This page stands twice.
    #[error("page 0x{:x} stands twice in the pool, and each page may stand once", .page.number())]
    Repeats { page: Page },
}

impl From<AllocError> for PoolFault {
    ghost use Rattle.page_pool.specs.declared.fault.PoolFault.TheVariants.{Memory};

    ghost from_gives = { λ _ e. e ≡ Memory };

    fn from(_: AllocError) -> PoolFault {
        PoolFault::Memory
    }
}

impl<T: Drop> From<AllocFailed<T>> for PoolFault {
    ghost use Rattle.page_pool.specs.declared.fault.PoolFault.TheVariants.{Memory};

    ghost from_gives = { λ _ e. e ≡ Memory };

    fn from(_: AllocFailed<T>) -> PoolFault {
        PoolFault::Memory
    }
}
