//! ELF files as a loader of kernels reads them: executables (ET_EXEC) and relocatable objects (ET_REL).
//!
//! An executable is ELF64 for x86-64 or ELF32 for i386. [`read_exec`] says its entry and its loads, the program headers
//! of type PT_LOAD; [`image_pages`] makes the segments that it is loaded as: the byte at an address is the file's where
//! a load has bytes for it, else zero, and a segment is a maximal run of the pages that loads meet. An object is ELF64
//! for x86-64; [`read_object`] says its sections, symbols and relocations with addends.
//!
//! Every refusal is the first in the order in which a file is read, and says its place. The tables of fields are those
//! of the System V ABI (gABI, "Object Files" and "Program Loading") and of the psABIs of x86-64 and i386; the order of
//! the refusals and the limits (addresses below 2^46, 65,536 pages) are this project's own.
#![tactic(auto)]

mod exec;
mod fault;
mod file_header;
mod image;
mod load;
mod loads;
mod numbers;
mod object;
mod program_header;
mod reloc;
mod runs;
mod section;
mod strings;
mod symbol;

pub use exec::{Exec, read_exec};
pub use fault::{ElfFault, ElfPart};
pub use image::image_pages;
pub use load::Load;
pub use numbers::{SHN_ABS, SHN_COMMON, SHN_UNDEF, SHT_NOBITS, SHT_NULL, SHT_REL};
pub use object::{Object, read_object};
pub use reloc::{Reloc, RelocSection};
pub use runs::EntryRuns;
pub use section::Section;
pub use strings::StringTable;
pub use symbol::{Symbol, SymbolTable};
