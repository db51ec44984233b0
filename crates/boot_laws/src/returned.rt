//! What the memory holds that `boot` leaves after two runs with context preserved.

ghost use Rattle.boot_laws.specs.Returned.{BootedMemoryReturns};

use kx_edge::{Shelf, Sink};

/// After a `boot` that was done, over files that are told, and that runs its list twice with context preserved, the first run
/// made a memory that starts the kernel as after one run; and the memory of which OUT is the file reads as MEMORY did, at
/// each page but those that the load drew from the pool.
pub fn booted_memory_returns<S: Shelf, O: Sink>()
    ensures { BootedMemoryReturns S.Shelf O.Sink }
{}
