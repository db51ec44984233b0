//! Why segments are refused.

ghost use Rattle.std.specs.Prelude.{◌≡◌};
ghost use Rattle.segments.specs.inner.Rules.{errno};

use kx_pages::Span;
use std::alloc::{AllocError, AllocFailed};
use thiserror::Error;

/// What kind of kernel is loaded: one that starts in place of this one, or one that starts when this one crashes, in
/// the memory that is reserved for it (`KEXEC_ON_CRASH` of kexec_load(2)).
#[derive(Clone, Copy)]
pub enum Kind {
    /// A kernel for any memory.
    Normal,
    /// A crash kernel, in this area of whole pages.
    Crash { area: Span },
}

/// Why segments are refused, in the order in which the rules are tested. Segments are numbered from 0.
#[derive(Clone, Copy, Debug, PartialEq, Eq, Error)]
pub enum SegFault {
    /// Want of memory.
    #[error("out of memory")]
    Memory,
    /// The list is empty.
    #[error("there are no segments, and a load needs at least one")]
    NoSegments,
    /// More than 16 segments.
    #[error("there are more than 16 segments")]
    TooMany,
    /// The memory of a segment does not begin and end at a multiple of 4,096, or does not end below 2^46.
    #[error("the memory of segment {i} does not begin and end at a multiple of 0x1000 below 0x400000000000")]
    BadAddress { i: usize },
    /// Segment `i` overlaps the earlier segment `j`.
    #[error("the memory of segment {i} overlaps that of segment {j}")]
    Overlap { i: usize, j: usize },
    /// A segment has more bytes than memory.
    #[error("segment {i} has more bytes than memory to put them in")]
    TooFull { i: usize },
    /// The segments take more than half of memory.
    #[error("a segment, or all together, takes more than half of the System RAM of the memory map")]
    HalfOfMemory,
    /// A segment of a crash kernel leaves the reserved area.
    #[error("segment {i} of the crash kernel leaves the reserved area")]
    OutsideReserved { i: usize },
    /// A page of a segment is no memory.
    #[error("segment {i} has a page that is not System RAM in the memory map")]
    NotRam { i: usize },
    /// More than 65,536 pages.
    #[error("the segments have {pages} pages together, and at most 65536 are allowed")]
    TooLarge { pages: u64 },
}

impl SegFault {
    /// The errno of kexec_load(2): 22 EINVAL, 99 EADDRNOTAVAIL, 12 ENOMEM. 0 where that call has no such refusal.
    pub fn errno(&self) -> u8
        ensures { result ≡ errno self.now }
    {
        match self {
            SegFault::Memory => 12,
            SegFault::BadAddress { .. } | SegFault::OutsideReserved { .. } => 99,
            SegFault::TooMany
            | SegFault::Overlap { .. }
            | SegFault::TooFull { .. }
            | SegFault::HalfOfMemory => 22,
            SegFault::NoSegments | SegFault::NotRam { .. } | SegFault::TooLarge { .. } => 0,
        }
    }
}

impl From<AllocError> for SegFault {
    ghost use Rattle.segments.specs.declared.fault.SegFault.TheVariants.{Memory};

    ghost from_gives = { λ _ e. e ≡ Memory };

    fn from(_: AllocError) -> SegFault {
        SegFault::Memory
    }
}

impl<T: Drop> From<AllocFailed<T>> for SegFault {
    ghost use Rattle.segments.specs.declared.fault.SegFault.TheVariants.{Memory};

    ghost from_gives = { λ _ e. e ≡ Memory };

    fn from(_: AllocFailed<T>) -> SegFault {
        SegFault::Memory
    }
}
