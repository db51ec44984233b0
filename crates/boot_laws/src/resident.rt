//! What the memory holds that `boot-resident` leaves.

ghost use Rattle.boot_laws.specs.Resident.{ResidentMemoryStarts};

use kx_edge::{Shelf, Sink};

/// After a `boot-resident` that was done, over files that are told, the memory of which OUT is the file has the kernel's file
/// at the address that was asked for, whole and with zeros behind it, though pages of it lay in memory before, and the kernel
/// is entered there.
pub fn resident_memory_starts<S: Shelf, O: Sink>()
    ensures { ResidentMemoryStarts S.Shelf O.Sink }
{}
