//! Each prefix of an object, and the numbers of the standard. Sections, symbols and relocations are shown by
//! crates/scenes/data/object-files.scenes and links.scenes.

use crate::bytes::{file_of, put};
use elf_image::{
    ElfFault, ElfPart, SHN_ABS, SHN_COMMON, SHN_UNDEF, SHT_NOBITS, SHT_NULL, SHT_REL, read_object,
};
use std::alloc::Global;
use std::test::Fail;

// Where the object's section headers stand behind the first one, each with 64 bytes.
const TEXT: u64 = 280;

const RELA: u64 = 344;

const SYMTAB: u64 = 408;

const STRTAB: u64 = 472;

const BSS: u64 = 536;

/// The section headers: type, flags, offset, size, sh_link and sh_info of each.
const SECTIONS: [(u64, [u16; 6]); 5] = [
    (TEXT, [1, 2 | 4, 64, 16, 0, 0]),
    (RELA, [4, 0, 80, 48, 3, 1]),
    (SYMTAB, [2, 0, 128, 72, 4, 0]),
    (STRTAB, [3, 0, 200, 11, 0, 0]),
    (BSS, [8, 3, 600, 4096, 0, 0]),
];

/// The file header and the sections' bytes, each with its place.
const BYTES: [(usize, &[u8]); 12] = [
    (0, &[0x7f, b'E', b'L', b'F', 2, 1, 1]),
    (16, &[1, 0, 62, 0]),
    (40, &[216]),
    (58, &[64, 0, 6]),
    (64, &[0x11; 16]),
    // At byte 4 a relocation of type 2 by symbol 1, and at byte 8 one of type 10 by symbol 2.
    (80, &[4, 0, 0, 0, 0, 0, 0, 0, 2, 0, 0, 0, 1]),
    (96, &[0xfc, 255, 255, 255, 255, 255, 255, 255]),
    (104, &[8, 0, 0, 0, 0, 0, 0, 0, 10, 0, 0, 0, 2]),
    // Symbol 1 is at byte 4 of section 1 and has 8 bytes, symbol 2 is absolute.
    (152, &[1, 0, 0, 0, 0x12, 0, 1, 0, 4]),
    (168, &[8]),
    (176, &[7, 0, 0, 0, 0, 0, 0xf1, 0xff, 0x34, 0x12]),
    (200, b"\0entry\0abs\0"),
];

// Puts a section header with this type, flags, offset, size, sh_link and sh_info, an alignment of 8 and entries of 24
// bytes.
fn put_section(file: &mut [u8], at: u64, [kind, flags, offset, size, link, info]: [u16; 6]) {
    let at = at as usize;
    put(file, at.saturating_add(4), &kind.to_le_bytes());
    put(file, at.saturating_add(8), &flags.to_le_bytes());
    put(file, at.saturating_add(24), &offset.to_le_bytes());
    put(file, at.saturating_add(32), &size.to_le_bytes());
    put(file, at.saturating_add(40), &link.to_le_bytes());
    put(file, at.saturating_add(44), &info.to_le_bytes());
    put(file, at.saturating_add(48), &[8]);
    put(file, at.saturating_add(56), &[24]);
}

// An object of 600 bytes: 16 loaded bytes, relocations of them, the symbol table, its strings, and loaded zeros that
// would lie outside the file. The relocations stand before the symbol table.
fn object_file(alloc: Global) -> Result<Vec<u8>, Fail> {
    let mut file = file_of(alloc, 600, &BYTES)?;
    for (at, numbers) in SECTIONS {
        put_section(&mut file, at, numbers);
    }
    Ok(file)
}

const TABLE_CUT: Option<ElfFault> = Some(ElfFault::Truncated {
    part: ElfPart::SectionTable,
});

// Why the front of the object is refused, so many bytes.
fn cut_fault(length: usize) -> Option<ElfFault> {
    match length {
        0..=15 => Some(ElfFault::NotElf),
        16..=63 => Some(ElfFault::Truncated {
            part: ElfPart::Header,
        }),
        64..=599 => TABLE_CUT,
        _ => None,
    }
}

#[test]
fn an_object_is_refused_at_each_length(rt: HostRuntime) -> Result<(), Fail> {
    let file = object_file(rt.alloc())?;
    for length in 0..=600 {
        let front = file.get(..length).ok_or("the front of the file")?;
        let found = read_object(rt.alloc(), front).err();
        assert_eq!(rt; found, cut_fault(length), "{length} bytes");
    }
    Ok(())
}

// The numbers of the gABI, chapters "Section Header" and "Symbol Table".
#[test]
fn public_numbers_are_those_of_the_standard(rt: HostRuntime) {
    assert_eq!(rt; [SHT_NULL, SHT_NOBITS, SHT_REL], [0, 8, 9]);
    assert_eq!(rt; [SHN_UNDEF, SHN_ABS, SHN_COMMON], [0, 0xfff1, 0xfff2]);
}
