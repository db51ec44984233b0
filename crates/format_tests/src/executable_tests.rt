//! Each prefix of an executable. Its headers and its loads are shown by crates/scenes/data/elf-files.scenes, those of
//! an ELF32 file by multiboot-files.scenes.

use crate::bytes::file_of;
use elf_image::{ElfFault, ElfPart, read_exec};
use std::alloc::Global;
use std::test::Fail;

/// The bytes of the ELF64 file, each with their place.
const BYTES: [(usize, &[u8]); 17] = [
    (0, &[0x7f, b'E', b'L', b'F', 2, 1, 1]),
    (16, &[2, 0, 62, 0]),
    (24, &[0, 9, 0x10]),
    (32, &[64]),
    (54, &[56, 0, 2]),
    // The first load: type, offset, address, size in the file and size in memory.
    (64, &[1]),
    (72, &[0, 0x10]),
    (88, &[0, 0, 0x10]),
    (96, &[0, 8]),
    (104, &[0, 8]),
    // The second.
    (120, &[1]),
    (128, &[0, 0x19]),
    (144, &[0, 9, 0x10]),
    (152, &[0, 3]),
    (160, &[0, 0x10]),
    (0x1000, &[0x11; 0x800]),
    (0x1900, &[0x22; 0x300]),
];

/// The bytes of the ELF32 file, each with their place.
const NARROW_BYTES: [(usize, &[u8]); 13] = [
    (0, &[0x7f, b'E', b'L', b'F', 1, 1, 1]),
    (16, &[2, 0, 3, 0]),
    (24, &[4, 0, 0x10]),
    (28, &[52]),
    (42, &[32, 0, 2]),
    // A program header of another type.
    (52, &[4]),
    // The load: type, offset, virtual and physical address, size in the file and size in memory.
    (84, &[1]),
    (88, &[116]),
    (92, &[9, 9, 9, 9]),
    (96, &[4, 0, 0x10]),
    (100, &[4]),
    (104, &[8]),
    (116, &[1, 2, 3, 4]),
];

// An ELF64 executable of 0x1c00 bytes with two loads: at 0x100000, with 0x800 bytes from 0x1000 on, and at 0x100900,
// with 0x300 bytes from 0x1900 on and 0x1000 of memory. Its program headers stand at 64, and there is room for a third.
fn file(alloc: Global) -> Result<Vec<u8>, Fail> {
    file_of(alloc, 0x1c00, &BYTES)
}

// An ELF32 executable of 120 bytes with one load of four bytes, behind a program header of another type.
fn narrow_file(alloc: Global) -> Result<Vec<u8>, Fail> {
    file_of(alloc, 120, &NARROW_BYTES)
}

fn fault_of(alloc: Global, bytes: &[u8]) -> Option<ElfFault> {
    read_exec(alloc, bytes).err()
}

fn cut(part: ElfPart) -> Option<ElfFault> {
    Some(ElfFault::Truncated { part })
}

// Why the first bytes of the file are refused, so many.
fn cut_fault(length: usize) -> Option<ElfFault> {
    match length {
        0..=15 => Some(ElfFault::NotElf),
        16..=63 => cut(ElfPart::Header),
        64..=175 => cut(ElfPart::ProgramTable),
        176..=0x17ff => cut(ElfPart::Load { i: 0 }),
        0x1800..=0x1bff => cut(ElfPart::Load { i: 1 }),
        _ => None,
    }
}

#[test]
fn a_file_is_refused_at_each_length(rt: HostRuntime) -> Result<(), Fail> {
    let alloc = rt.alloc();
    let file = file(alloc)?;
    for length in 0..=0x1c00 {
        let front = file.get(..length).ok_or("the front of the file")?;
        assert_eq!(rt; fault_of(alloc, front), cut_fault(length), "{length} bytes");
    }
    Ok(())
}

// The same of the ELF32 file.
fn narrow_cut_fault(length: usize) -> Option<ElfFault> {
    match length {
        0..=15 => Some(ElfFault::NotElf),
        16..=51 => cut(ElfPart::Header),
        52..=115 => cut(ElfPart::ProgramTable),
        116..=119 => cut(ElfPart::Load { i: 0 }),
        _ => None,
    }
}

#[test]
fn an_elf32_file_is_refused_at_each_length(rt: HostRuntime) -> Result<(), Fail> {
    let alloc = rt.alloc();
    let file = narrow_file(alloc)?;
    for length in 0..=120 {
        let front = file.get(..length).ok_or("the front of the file")?;
        assert_eq!(rt;
            fault_of(alloc, front),
            narrow_cut_fault(length),
            "{length} bytes"
        );
    }
    Ok(())
}
