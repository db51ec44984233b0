//! Program headers.

ghost use Rattle.std.specs.Prelude.{◌≡◌, ◌<◌, length};
ghost use Rattle.kx_fields.specs.Formats.{read};
ghost use Rattle.elf_image.specs.inner.FileHeader.{HasTable};
ghost use Rattle.elf_image.specs.ProgramHeader.{elf32, load_of, header_at, load_at};

use crate::file_header::Header;
use crate::load::Load;
use elf_headers::{PT_LOAD, ProgramHeader};
use kx_fields::Block;

// The places in an ELF32 program header, whose flags stand behind its sizes (ELF gABI, chapter 5, "Program Header":
// `Elf32_Phdr`).
macro_rules! elf32 {
    ($($use:tt)*) => {
        kx_fields::fields!($($use)* {
            kind: u32 @ 0,
            flags: u32 @ 24,
            offset: u32 as u64 @ 4,
            vaddr: u32 as u64 @ 8,
            paddr: u32 as u64 @ 12,
            filesz: u32 as u64 @ 16,
            memsz: u32 as u64 @ 20,
            align: u32 as u64 @ 28,
        })
    };
}

// What the bytes of an ELF32 program header say.
fn read32(block: &Block<32>) -> ProgramHeader
    ensures { result ≡ read elf32 block.now }
{
    elf32!(get block, ProgramHeader)
}

// The load that a program header is, if it is one.
fn load_of(header: ProgramHeader) -> Option<Load>
    ensures { result ≡ load_of header }
{
    if header.kind != PT_LOAD {
        return None;
    }
    Some(Load {
        offset: header.offset,
        filesz: header.filesz,
        paddr: header.paddr,
        memsz: header.memsz,
    })
}

impl Header {
    // The program header number `k`.
    fn program_header(&self, bytes: &[u8], k: u16) -> ProgramHeader
        requires table { HasTable (length bytes.now) self.now }
        requires there { k < self.now.file.phnum }
        ensures { result ≡ header_at self.now bytes.now k }
    {
        let at = (self.file.phoff + self.entry_size() * u64::from(k)) as usize;
        if self.wide {
            ProgramHeader::read(&Block::<56>::cut(bytes, at).unwrap())
        } else {
            read32(&Block::<32>::cut(bytes, at).unwrap())
        }
    }

    /// The load that the program header number `k` is, if it is one.
    pub(crate) fn load(&self, bytes: &[u8], k: u16) -> Option<Load>
        requires table { HasTable (length bytes.now) self.now }
        requires there { k < self.now.file.phnum }
        ensures { result ≡ load_at self.now bytes.now k }
    {
        load_of(self.program_header(bytes, k))
    }
}
