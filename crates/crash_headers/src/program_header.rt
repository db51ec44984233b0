//! The program headers of notes and of ranges.

ghost use Rattle.std.specs.Prelude.{◌≡◌};
ghost use Rattle.memory_map.specs.inner.Rows.{IsBelow};
ghost use Rattle.crash_headers.specs.ProgramHeader.{note_row, load_row};

use crate::note::Note;
use elf_headers::{PF_R, PF_W, PF_X, PT_LOAD, PT_NOTE, ProgramHeader};
use memory_map::Row;

/// Where x86-64 Linux maps all of memory (`__PAGE_OFFSET` with four levels of page tables).
const DIRECT_MAP: u64 = 0xffff_8880_0000_0000;

/// The PT_NOTE of a note.
pub(crate) fn note_row(note: Note) -> ProgramHeader
    ensures { result ≡ note_row note }
{
    ProgramHeader {
        kind: PT_NOTE,
        flags: 0,
        offset: note.start,
        vaddr: 0,
        paddr: note.start,
        filesz: note.size,
        memsz: note.size,
        align: 0,
    }
}

/// The PT_LOAD of a range, which is readable, writable and executable.
pub(crate) fn load_row(range: Row) -> ProgramHeader
    requires { IsBelow range }
    ensures { result ≡ load_row range }
{
    ProgramHeader {
        kind: PT_LOAD,
        flags: PF_R | PF_W | PF_X,
        offset: range.start,
        vaddr: range.start + DIRECT_MAP,
        paddr: range.start,
        filesz: range.size,
        memsz: range.size,
        align: 0,
    }
}
