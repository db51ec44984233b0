//! Numbers that stand for something in the headers of an ELF file (System V ABI, gABI, chapters 4 and 5).

/// The identification of an ELF64 file (ELFCLASS64) whose numbers have their lowest byte first (ELFDATA2LSB), of the
/// current version (EV_CURRENT), for no system in particular (`e_ident`).
pub const ELF64_IDENT: &[u8; 16] = b"\x7fELF\x02\x01\x01\0\0\0\0\0\0\0\0\0";

/// The bytes of an ELF64 file header (`e_ehsize`).
pub const FILE_HEADER_SIZE: u16 = 64;

/// The bytes of an ELF64 program header (`e_phentsize`).
pub const PROGRAM_HEADER_SIZE: u16 = 56;

/// The type of a relocatable object (`e_type`).
pub const ET_REL: u16 = 1;

/// The type of an executable (`e_type`).
pub const ET_EXEC: u16 = 2;

/// The type of a core file (`e_type`).
pub const ET_CORE: u16 = 4;

/// The machine i386 (`e_machine`).
pub const EM_386: u16 = 3;

/// The machine x86-64 (`e_machine`).
pub const EM_X86_64: u16 = 62;

/// This number of program headers stands for another, which does not fit its field (`e_phnum`).
pub const PN_XNUM: u16 = 0xffff;

/// The type of a program header whose part of the file is loaded (`p_type`).
pub const PT_LOAD: u32 = 1;

/// The type of a program header whose part of the file has notes (`p_type`).
pub const PT_NOTE: u32 = 4;

/// The flag of bytes that may be executed (`p_flags`).
pub const PF_X: u32 = 1;

/// The flag of bytes that may be written (`p_flags`).
pub const PF_W: u32 = 2;

/// The flag of bytes that may be read (`p_flags`).
pub const PF_R: u32 = 4;
