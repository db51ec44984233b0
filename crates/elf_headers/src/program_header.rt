//! Program headers.

ghost use Rattle.std.specs.Prelude.{◌≡◌};
ghost use Rattle.kx_fields.specs.Formats.{read};
ghost use Rattle.elf_headers.specs.ProgramHeader.{program_header, row_text};
ghost use Rattle.elf_headers.specs.inner.ProgramHeader.{IsRowReadBack};

use kx_fields::Block;

/// The numbers of a program header (ELF gABI, chapter 5, "Program Header": `Elf64_Phdr`). Places, sizes and addresses
/// are in bytes.
#[derive(Clone, Copy, Debug, PartialEq, Eq)]
pub struct ProgramHeader {
    /// What it is about (`p_type`).
    pub kind: u32,
    /// What its bytes in memory may be used for (`p_flags`).
    pub flags: u32,
    /// Where its bytes start in the file (`p_offset`).
    pub offset: u64,
    /// Their virtual address (`p_vaddr`).
    pub vaddr: u64,
    /// Their physical address (`p_paddr`).
    pub paddr: u64,
    /// How many bytes of the file it has (`p_filesz`).
    pub filesz: u64,
    /// How many bytes of memory it takes (`p_memsz`).
    pub memsz: u64,
    /// The alignment of its bytes, in the file and in memory (`p_align`): 0 and 1 say that there is none.
    pub align: u64,
}

macro_rules! program_header {
    ($($use:tt)*) => {
        kx_fields::fields!($($use)* {
            kind: u32 @ 0,
            flags: u32 @ 4,
            offset: u64 @ 8,
            vaddr: u64 @ 16,
            paddr: u64 @ 24,
            filesz: u64 @ 32,
            memsz: u64 @ 40,
            align: u64 @ 48,
        })
    };
}

impl ProgramHeader {
    /// What the bytes of a program header say.
    pub fn read(block: &Block<56>) -> ProgramHeader
        ensures { result ≡ read program_header block.now }
    {
        program_header!(get block, ProgramHeader)
    }

    /// Its bytes.
    #[tactic(auto, unfolding(crate::specs::ProgramHeader::row_text))]
    pub fn block(self) -> Block<56>
        ensures text { result ≡ row_text self }
        ensures back { IsRowReadBack self }
    {
        let mut block = Block::zeros();
        program_header!(put block, self);
        block
    }
}
