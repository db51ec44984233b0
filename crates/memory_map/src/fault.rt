//! Why a text is no memory map.

ghost use Rattle.std.specs.Prelude.{◌≡◌};

use std::alloc::{AllocError, AllocFailed};
use thiserror::Error;

/// Why a text is no memory map. Lines are numbered from 1.
#[derive(Clone, Copy, Debug, Error)]
pub enum MapFault {
    /// Memory ran out.
    #[error("out of memory")]
    Memory,
    /// This line is not `first-last : name`, with the addresses of its first and its last byte in hexadecimal.
    #[error("line {line} of the memory map is not `first-last : name` with first and last in hexadecimal")]
    BadLine { line: u64 },
    /// The address of this line's last byte is below that of its first.
    #[error("the last byte of line {line} of the memory map is below its first byte")]
    Backwards { line: u64 },
    /// This line is of System RAM, and has a byte below 2^46 that an earlier line of System RAM has.
    #[error("the System RAM of line {line} of the memory map meets that of an earlier line (is the map read as root?)")]
    RamOverlaps { line: u64 },
    /// No whole page is System RAM that nothing else takes.
    #[error("the memory map has no whole page of System RAM that nothing else takes (is the map read as root?)")]
    NoRam,
}

impl From<AllocError> for MapFault {
    ghost use Rattle.memory_map.specs.declared.fault.MapFault.TheVariants.{Memory};

    ghost from_gives = { λ _ e. e ≡ Memory };

    fn from(_: AllocError) -> MapFault {
        MapFault::Memory
    }
}

impl<T: Drop> From<AllocFailed<T>> for MapFault {
    ghost use Rattle.memory_map.specs.declared.fault.MapFault.TheVariants.{Memory};

    ghost from_gives = { λ _ e. e ≡ Memory };

    fn from(_: AllocFailed<T>) -> MapFault {
        MapFault::Memory
    }
}
