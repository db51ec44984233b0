//! What the memory holds that `boot` and `load-panic` leave.

ghost use Rattle.boot_laws.specs.Booted.{BootedMemoryStarts, PanicMemoryStarts};

use kx_edge::{Shelf, Sink};

/// After a `boot` that was done, over files that are told, and that runs its list once, the memory of which OUT is the file
/// has the bytes of each segment of the plan at its address and zeros behind them, and the kernel finds its parts among these
/// segments by its own protocol, whatever its type.
pub fn booted_memory_starts<S: Shelf, O: Sink>()
    ensures { BootedMemoryStarts S.Shelf O.Sink }
{}

/// So has the memory after a `load-panic` that was done, for the crash kernel.
pub fn panic_memory_starts<S: Shelf, O: Sink>()
    ensures { PanicMemoryStarts S.Shelf O.Sink }
{}
