//! Numbers that stand for something in the sections and symbols of an ELF file (System V ABI, gABI, chapter 4).

/// No section (`sh_type`).
pub const SHT_NULL: u32 = 0;

/// A symbol table (`sh_type`).
pub(crate) const SHT_SYMTAB: u32 = 2;

/// A string table (`sh_type`).
pub(crate) const SHT_STRTAB: u32 = 3;

/// Relocations with addends (`sh_type`).
pub(crate) const SHT_RELA: u32 = 4;

/// A section of zeros, which has no bytes in the file (`sh_type`).
pub const SHT_NOBITS: u32 = 8;

/// Relocations without addends (`sh_type`).
pub const SHT_REL: u32 = 9;

/// The section of a symbol that another object defines (`st_shndx`).
pub const SHN_UNDEF: u16 = 0;

/// The section of a symbol whose value is no address (`st_shndx`).
pub const SHN_ABS: u16 = 0xfff1;

/// The section of a symbol whose place a linker chooses (`st_shndx`).
pub const SHN_COMMON: u16 = 0xfff2;
