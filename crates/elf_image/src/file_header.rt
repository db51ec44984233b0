//! The file header, and its tests.

ghost use Rattle.std.specs.Prelude.{◌≡◌, ◌+◌, ◌*◌, ◌==◌, true, false, nat_lt};
ghost use Rattle.kx_fields.specs.Formats.{read};
ghost use Rattle.kx_laws.specs.Results.{unless};
ghost use Rattle.elf_image.specs.FileHeader.{read_class, elf32, header_of, read_header, read_elf64, entry_size, is_table_cut, exec_fault, exec_header, object_fault, object_header};

use crate::fault::{ElfFault, ElfPart};
use elf_headers::{EM_386, EM_X86_64, ET_EXEC, ET_REL, FileHeader, PN_XNUM};
use kx_fields::Block;

/// The identification of an ELF file.
const MAGIC: &[u8; 4] = b"\x7fELF";

// The places in an ELF32 file header (ELF gABI, chapter 4, "ELF Header": `Elf32_Ehdr`).
macro_rules! elf32 {
    ($($use:tt)*) => {
        kx_fields::fields!($($use)* {
            kind: u16 @ 16,
            machine: u16 @ 18,
            version: u32 @ 20,
            entry: u32 as u64 @ 24,
            phoff: u32 as u64 @ 28,
            shoff: u32 as u64 @ 32,
            flags: u32 @ 36,
            ehsize: u16 @ 40,
            phentsize: u16 @ 42,
            phnum: u16 @ 44,
            shentsize: u16 @ 46,
            shnum: u16 @ 48,
            shstrndx: u16 @ 50,
        })
    };
}

// What the first bytes of an ELF32 file say.
fn read32(block: &Block<52>) -> FileHeader
    ensures { result ≡ read elf32 block.now }
{
    elf32!(get block, FileHeader)
}

/// The file header, and whether it is that of an ELF64 file.
#[derive(Clone, Copy)]
pub(crate) struct Header {
    pub(crate) wide: bool,
    pub(crate) file: FileHeader,
}

// Whether the file is ELF64, and not ELF32.
#[tactic(auto, unfolding(crate::specs::FileHeader::read_class))]
fn read_class(bytes: &[u8]) -> Result<bool, ElfFault>
    ensures { result ≡ read_class bytes.now }
{
    if bytes.len() < 16 || !bytes.starts_with(MAGIC) {
        return Err(ElfFault::NotElf);
    }
    if bytes[4] != 1 && bytes[4] != 2 || bytes[5] != 1 || bytes[6] != 1 {
        return Err(ElfFault::Class);
    }
    Ok(bytes[4] == 2)
}

// The file header of an ELF64 file.
fn read_wide(bytes: &[u8]) -> Result<Header, ElfFault>
    ensures { result ≡ header_of bytes.now true }
{
    match Block::<64>::cut(bytes, 0) {
        Some(block) => Ok(Header {
            wide: true,
            file: FileHeader::read(&block),
        }),
        None => Err(ElfFault::Truncated {
            part: ElfPart::Header,
        }),
    }
}

// The file header of an ELF32 file.
fn read_narrow(bytes: &[u8]) -> Result<Header, ElfFault>
    ensures { result ≡ header_of bytes.now false }
{
    match Block::<52>::cut(bytes, 0) {
        Some(block) => Ok(Header {
            wide: false,
            file: read32(&block),
        }),
        None => Err(ElfFault::Truncated {
            part: ElfPart::Header,
        }),
    }
}

impl Header {
    // The file header of an ELF file, or why there is none.
    #[tactic(auto, unfolding(crate::specs::FileHeader::read_header))]
    fn read(bytes: &[u8]) -> Result<Header, ElfFault>
        ensures { result ≡ read_header bytes.now }
    {
        match read_class(bytes) {
            Ok(wide) => {
                if wide {
                    read_wide(bytes)
                } else {
                    read_narrow(bytes)
                }
            }
            Err(fault) => Err(fault),
        }
    }

    // That of an ELF64 file.
    #[tactic(auto, unfolding(crate::specs::FileHeader::read_elf64))]
    fn read_elf64(bytes: &[u8]) -> Result<Header, ElfFault>
        ensures { result ≡ read_elf64 bytes.now }
    {
        match read_class(bytes) {
            Ok(wide) => {
                if wide {
                    read_wide(bytes)
                } else {
                    Err(ElfFault::Class)
                }
            }
            Err(fault) => Err(fault),
        }
    }

    /// How many bytes a program header has.
    pub(crate) fn entry_size(&self) -> u64
        ensures { result ≡ entry_size self.now.wide }
    {
        if self.wide { 56 } else { 32 }
    }

    // The program headers end behind a file of so many bytes.
    fn is_cut(&self, total: usize) -> bool
        ensures { result ≡ is_table_cut total self.now }
    {
        let start = u128::from(self.file.phoff);
        let table = self.entry_size() * u64::from(self.file.phnum);
        start + u128::from(table) > total as u128
    }

    // Tests the header of an executable of so many bytes.
    #[tactic(auto, unfolding(crate::specs::FileHeader::exec_fault))]
    fn test_exec(&self, total: usize) -> Result<(), ElfFault>
        ensures { result ≡ unless (exec_fault total self.now) }
    {
        if self.file.machine != (if self.wide { EM_X86_64 } else { EM_386 }) {
            return Err(ElfFault::Machine);
        }
        if self.file.kind != ET_EXEC {
            return Err(ElfFault::Kind);
        }
        if self.file.phnum == PN_XNUM {
            return Err(ElfFault::BadIndex {
                at: if self.wide { 56 } else { 44 },
            });
        }
        if self.file.phnum != 0 && u64::from(self.file.phentsize) != self.entry_size() {
            return Err(ElfFault::BadEntrySize {
                at: if self.wide { 54 } else { 42 },
            });
        }
        if self.is_cut(total) {
            return Err(ElfFault::Truncated {
                part: ElfPart::ProgramTable,
            });
        }
        Ok(())
    }

    /// The file header of an executable, tested.
    #[tactic(auto, unfolding(crate::specs::FileHeader::exec_header))]
    pub(crate) fn read_exec(bytes: &[u8]) -> Result<Header, ElfFault>
        ensures { result ≡ exec_header bytes.now }
    {
        match Header::read(bytes) {
            Ok(header) => match header.test_exec(bytes.len()) {
                Ok(()) => Ok(header),
                Err(fault) => Err(fault),
            },
            Err(fault) => Err(fault),
        }
    }

    // The section headers, of 64 bytes, end behind a file of so many bytes.
    fn are_sections_cut(&self, total: usize) -> bool
        ensures { result ≡ nat_lt total (self.now.file.shoff + 64 * self.now.file.shnum) }
    {
        u128::from(self.file.shoff) + 64 * u128::from(self.file.shnum) > total as u128
    }

    // Tests the header of an object of so many bytes.
    #[tactic(auto, unfolding(crate::specs::FileHeader::object_fault))]
    fn test_object(&self, total: usize) -> Result<(), ElfFault>
        ensures { result ≡ unless (object_fault total self.now) }
    {
        if self.file.machine != EM_X86_64 {
            return Err(ElfFault::Machine);
        }
        if self.file.kind != ET_REL {
            return Err(ElfFault::Kind);
        }
        if self.file.shnum != 0 && self.file.shentsize != 64 {
            return Err(ElfFault::BadEntrySize { at: 58 });
        }
        if self.are_sections_cut(total) {
            return Err(ElfFault::Truncated {
                part: ElfPart::SectionTable,
            });
        }
        Ok(())
    }

    /// The file header of an object, tested.
    #[tactic(auto, unfolding(crate::specs::FileHeader::object_header))]
    pub(crate) fn read_object(bytes: &[u8]) -> Result<Header, ElfFault>
        ensures { result ≡ object_header bytes.now }
    {
        match Header::read_elf64(bytes) {
            Ok(header) => match header.test_object(bytes.len()) {
                Ok(()) => Ok(header),
                Err(fault) => Err(fault),
            },
            Err(fault) => Err(fault),
        }
    }
}
