//! Why bytes are no memory file, and why a memory has none.

ghost use Rattle.std.specs.Prelude.{◌≡◌};

use std::alloc::{AllocError, AllocFailed};
use thiserror::Error;

/// Why bytes are no memory file: the first reason, in the order of the file. Each place is an offset in bytes from
/// the file's start. This project's own.
#[derive(Clone, Copy, Debug, PartialEq, Eq, Error)]
pub enum MemFault {
    /// Want of memory: nothing was read.
    #[error("out of memory")]
    Memory,
    /// The first eight bytes are not `KXMEM001`, a shorter file included.
    #[error("the memory file does not begin with KXMEM001")]
    BadMagic,
    /// The file ends, at `at`, before the count or a page is whole.
    #[error("the memory file is cut off at byte {at}")]
    Truncated { at: u64 },
    /// `at` is the place of the first byte after the last page.
    #[error("the memory file goes on after its last page, at byte {at}")]
    Trailing { at: u64 },
    /// The page numbers do not rise strictly; `at` is the place of the number.
    #[error("the page number at byte {at} of the memory file is not above the one before it")]
    NotRising { at: u64 },
    /// A page is all zeros; `at` is the place of its number.
    #[error("the page at byte {at} of the memory file is all zeros: such a page must be left out")]
    ZeroPage { at: u64 },
    /// The file counts more than 131,072 pages.
    #[error("the memory file counts {count} pages, and at most 131072 are allowed")]
    TooMany { count: u64 },
    /// A page number is 2^34 or more; `at` is its place.
    #[error("the page number at byte {at} of the memory file is not below 0x400000000")]
    PastLimit { at: u64 },
}

impl From<AllocError> for MemFault {
    ghost use Rattle.page_memory.specs.declared.fault.MemFault.TheVariants.{Memory};

    ghost from_gives = { λ _ e. e ≡ Memory };

    fn from(_: AllocError) -> MemFault {
        MemFault::Memory
    }
}

impl<T: Drop> From<AllocFailed<T>> for MemFault {
    ghost use Rattle.page_memory.specs.declared.fault.MemFault.TheVariants.{Memory};

    ghost from_gives = { λ _ e. e ≡ Memory };

    fn from(_: AllocFailed<T>) -> MemFault {
        MemFault::Memory
    }
}

/// Why a memory has no file. This project's own.
#[derive(Clone, Copy, Debug, Error)]
pub enum HeavyFault {
    /// Want of memory: no file was made.
    #[error("out of memory")]
    Memory,
    /// More than 131,072 pages are not all zeros.
    #[error("{count} pages of the memory are not all zeros, and a memory file has at most 131072")]
    TooMany { count: u64 },
}

impl From<AllocError> for HeavyFault {
    ghost use Rattle.page_memory.specs.declared.fault.HeavyFault.TheVariants.{Memory};

    ghost from_gives = { λ _ e. e ≡ Memory };

    fn from(_: AllocError) -> HeavyFault {
        HeavyFault::Memory
    }
}

impl<T: Drop> From<AllocFailed<T>> for HeavyFault {
    ghost use Rattle.page_memory.specs.declared.fault.HeavyFault.TheVariants.{Memory};

    ghost from_gives = { λ _ e. e ≡ Memory };

    fn from(_: AllocFailed<T>) -> HeavyFault {
        HeavyFault::Memory
    }
}
