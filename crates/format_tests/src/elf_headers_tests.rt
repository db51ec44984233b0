//! Both headers against bytes written out from the standard, with another number in each place.

use elf_headers::{
    ELF64_IDENT, EM_386, EM_X86_64, ET_CORE, ET_EXEC, ET_REL, FILE_HEADER_SIZE, FileHeader, PF_R,
    PF_W, PF_X, PN_XNUM, PROGRAM_HEADER_SIZE, PT_LOAD, PT_NOTE, ProgramHeader,
};
use kx_fields::Block;
use std::test::Fail;

// Bytes 1 to 64, which a file has behind no identification at all: each field has other bytes, and what it reads as tells
// its place and its width (ELF gABI, chapter 4, "ELF Header").
const COUNTED: [u8; 64] = [
    1, 2, 3, 4, 5, 6, 7, 8, 9, 10, 11, 12, 13, 14, 15, 16, 17, 18, 19, 20, 21, 22, 23, 24, 25, 26,
    27, 28, 29, 30, 31, 32, 33, 34, 35, 36, 37, 38, 39, 40, 41, 42, 43, 44, 45, 46, 47, 48, 49, 50,
    51, 52, 53, 54, 55, 56, 57, 58, 59, 60, 61, 62, 63, 64,
];

// ELFMAG0 to ELFMAG3, ELFCLASS64, ELFDATA2LSB, EV_CURRENT, ELFOSABI_NONE, and zeros.
const IDENT: [u8; 16] = [0x7f, 0x45, 0x4c, 0x46, 2, 1, 1, 0, 0, 0, 0, 0, 0, 0, 0, 0];

const FILE_HEADER: FileHeader = FileHeader {
    kind: 0x1211,
    machine: 0x1413,
    version: 0x1817_1615,
    entry: 0x201f_1e1d_1c1b_1a19,
    phoff: 0x2827_2625_2423_2221,
    shoff: 0x302f_2e2d_2c2b_2a29,
    flags: 0x3433_3231,
    ehsize: 0x3635,
    phentsize: 0x3837,
    phnum: 0x3a39,
    shentsize: 0x3c3b,
    shnum: 0x3e3d,
    shstrndx: 0x403f,
};

const PROGRAM_HEADER: ProgramHeader = ProgramHeader {
    kind: 0x0403_0201,
    flags: 0x0807_0605,
    offset: 0x100f_0e0d_0c0b_0a09,
    vaddr: 0x1817_1615_1413_1211,
    paddr: 0x201f_1e1d_1c1b_1a19,
    filesz: 0x2827_2625_2423_2221,
    memsz: 0x302f_2e2d_2c2b_2a29,
    align: 0x3837_3635_3433_3231,
};

#[test]
fn each_number_of_a_file_header_has_its_place(rt: HostRuntime) -> Result<(), Fail> {
    let block = Block::<64>::cut(&COUNTED, 0).ok_or("64 bytes")?;
    assert_eq!(rt; FileHeader::read(&block), FILE_HEADER);
    let made = FILE_HEADER.block();
    let (ident, rest) = made
        .bytes()
        .split_at_checked(16)
        .ok_or("an identification")?;
    assert_eq!(rt; ident, IDENT.as_slice());
    assert_eq!(rt; rest, COUNTED.get(16..).ok_or("fields")?);
    Ok(())
}

#[test]
fn each_number_of_a_program_header_has_its_place(rt: HostRuntime) -> Result<(), Fail> {
    let block = Block::<56>::cut(&COUNTED, 0).ok_or("56 bytes")?;
    assert_eq!(rt; ProgramHeader::read(&block), PROGRAM_HEADER);
    assert_eq!(rt;
        PROGRAM_HEADER.block().bytes(),
        COUNTED.get(..56).ok_or("fields")?
    );
    Ok(())
}

// The values of the gABI, chapters 4 and 5, and of the psABIs of x86-64 and i386.
#[test]
fn the_numbers_are_the_standards(rt: HostRuntime) {
    assert_eq!(rt; ELF64_IDENT, &IDENT);
    assert_eq!(rt; [FILE_HEADER_SIZE, PROGRAM_HEADER_SIZE], [64, 56]);
    assert_eq!(rt; [ET_REL, ET_EXEC, ET_CORE], [1, 2, 4]);
    assert_eq!(rt; [EM_386, EM_X86_64, PN_XNUM], [3, 62, 0xffff]);
    assert_eq!(rt; [PT_LOAD, PT_NOTE], [1, 4]);
    assert_eq!(rt; [PF_X, PF_W, PF_R], [1, 2, 4]);
}
