//! Outputs that are files of memories.

ghost use Rattle.std.specs.Prelude.{◌≡◌, ◌∷◌, [], map, string_bytes, IfOk};
ghost use Rattle.page_memory.specs.Contents.{at};
ghost use Rattle.file_commands.specs.inner.Calls.{MakesOr, file_of};
ghost use Rattle.command_parts.specs.Outputs.{HasNoFile, IsFileOf, IsMemoryFile};

use crate::reason::{MakeResult, Reason};
use command_table::Role;
use file_commands::{File, MakeFault};
use page_memory::{HeavyFault, Memory};
use std::alloc::{AllocError, Global};

// The bytes of the file of a memory.
fn memory_bytes(memory: Memory) -> MakeResult<Vec<u8>>
    ensures { MakesOr (λ bytes. IsFileOf (at memory) bytes.items) (HasNoFile (at memory)) result }
{
    // for its clause: what every value of the type keeps
    let _sets = memory.sets();
    match memory.into_file() {
        Ok(bytes) => Ok(bytes),
        Err(HeavyFault::Memory) => Err(MakeFault::Memory),
        Err(HeavyFault::TooMany { count }) => Err(MakeFault::refused(Reason::Heavy { count })),
    }
}

/// One output.
pub fn one_file(
    alloc: Global,
    role: Role,
    name: String,
    bytes: Vec<u8>,
) -> Result<Vec<File>, AllocError>
    ensures { IfOk result
        (λ v. v.items ≡ record { role = role; name = name; bytes = bytes } ∷ []) }
{
    let mut files = Vec::new(alloc);
    files.push(File { role, name, bytes })?;
    Ok(files)
}

/// The file of a memory that is used no more, as the one output, of this name.
pub fn memory_output(alloc: Global, memory: Memory, name: String) -> MakeResult<Vec<File>>
    ensures { MakesOr
        (λ files. IsMemoryFile (map file_of files.items) (string_bytes name) (at memory))
        (HasNoFile (at memory)) result }
{
    let bytes = memory_bytes(memory)?;
    Ok(one_file(alloc, Role::MemoryOut, name, bytes)?)
}
