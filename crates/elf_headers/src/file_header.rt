//! The file header.

ghost use Rattle.std.specs.Prelude.{◌≡◌};
ghost use Rattle.kx_fields.specs.Formats.{read};
ghost use Rattle.elf_headers.specs.FileHeader.{file_header, header_text, core_header};
ghost use Rattle.elf_headers.specs.inner.FileHeader.{IsHeaderReadBack};

use crate::numbers::{ELF64_IDENT, EM_X86_64, ET_CORE, FILE_HEADER_SIZE, PROGRAM_HEADER_SIZE};
use kx_fields::Block;

/// The numbers of a file header, behind its identification (ELF gABI, chapter 4, "ELF Header": `Elf64_Ehdr`). Places and
/// sizes are in bytes.
#[derive(Clone, Copy, Debug, PartialEq, Eq)]
pub struct FileHeader {
    /// The type of the file (`e_type`).
    pub kind: u16,
    /// The machine that it is for (`e_machine`).
    pub machine: u16,
    /// The version of the format (`e_version`).
    pub version: u32,
    /// The address that it is entered at (`e_entry`).
    pub entry: u64,
    /// Where its program headers start in the file (`e_phoff`).
    pub phoff: u64,
    /// Where its section headers start in the file (`e_shoff`).
    pub shoff: u64,
    /// Flags of the machine (`e_flags`).
    pub flags: u32,
    /// The size of this header (`e_ehsize`).
    pub ehsize: u16,
    /// The size of a program header (`e_phentsize`).
    pub phentsize: u16,
    /// How many program headers it has (`e_phnum`).
    pub phnum: u16,
    /// The size of a section header (`e_shentsize`).
    pub shentsize: u16,
    /// How many section headers it has (`e_shnum`).
    pub shnum: u16,
    /// Which section has the sections' names (`e_shstrndx`).
    pub shstrndx: u16,
}

macro_rules! file_header {
    ($($use:tt)*) => {
        kx_fields::fields!($($use)* {
            kind: u16 @ 16,
            machine: u16 @ 18,
            version: u32 @ 20,
            entry: u64 @ 24,
            phoff: u64 @ 32,
            shoff: u64 @ 40,
            flags: u32 @ 48,
            ehsize: u16 @ 52,
            phentsize: u16 @ 54,
            phnum: u16 @ 56,
            shentsize: u16 @ 58,
            shnum: u16 @ 60,
            shstrndx: u16 @ 62,
        })
    };
}

impl FileHeader {
    /// That of a core file for x86-64 with so many program headers right behind it, and no sections.
    pub fn core(phnum: u16) -> FileHeader
        ensures { result ≡ core_header phnum }
    {
        FileHeader {
            kind: ET_CORE,
            machine: EM_X86_64,
            version: 1,
            entry: 0,
            phoff: u64::from(FILE_HEADER_SIZE),
            shoff: 0,
            flags: 0,
            ehsize: FILE_HEADER_SIZE,
            phentsize: PROGRAM_HEADER_SIZE,
            phnum,
            shentsize: 0,
            shnum: 0,
            shstrndx: 0,
        }
    }

    /// What the first bytes of an ELF64 file say. Their identification is not looked at.
    pub fn read(block: &Block<64>) -> FileHeader
        ensures { result ≡ read file_header block.now }
    {
        file_header!(get block, FileHeader)
    }

    /// The first bytes of the file.
    #[tactic(auto, unfolding(crate::specs::FileHeader::header_text))]
    pub fn block(self) -> Block<64>
        ensures text { result ≡ header_text self }
        ensures back { IsHeaderReadBack self }
    {
        let mut block = Block::zeros();
        block.put_bytes(0, ELF64_IDENT);
        file_header!(put block, self);
        block
    }
}
