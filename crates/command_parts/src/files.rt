//! The memory file of a command is taken and read.

ghost use Rattle.std.specs.Prelude.{string_bytes};
ghost use Rattle.file_commands.specs.inner.Calls.{Takes};
ghost use Rattle.command_parts.specs.Files.{memory_file};

use crate::reason::{InputFault, TakeResult};
use command_table::Role;
use file_commands::take_file;
use kx_edge::Shelf;
use page_memory::Memory;
use std::alloc::Global;

/// The most bytes of a memory file: 16 and 4,104 for each of 131,072 pages.
const MEMORY_FILE_LIMIT: usize = 537_919_504;

/// The most bytes of a pool file, of a memory map, of a file of notes, of a file of pairs and of a file of events.
pub const TEXT_LIMIT: usize = 1_048_576;

/// Takes a memory file and reads it.
pub fn take_memory<S: Shelf>(alloc: Global, name: String, shelf: &mut S) -> TakeResult<Memory>
    ensures { Takes S.Shelf (memory_file (string_bytes name)) (λ m. m) shelf.old result shelf.new }
{
    let bytes = take_file(alloc, Role::Memory, name, MEMORY_FILE_LIMIT, shelf)?;
    Memory::from_file(alloc, bytes).map_err(|fault| InputFault::Mem { fault }.stop())
}
