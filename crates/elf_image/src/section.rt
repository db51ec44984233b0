//! Sections and their headers.

ghost use Rattle.std.specs.Prelude.{◌≡◌, ◌+◌, ◌*◌, ◌^◌, ◌≤◌, ◌<◌, ◌==◌, length, map, position, true, Some, IfOk, IfSome};
ghost use Rattle.std.specs.List.{slice_get};
ghost use Rattle.kx_fields.specs.Fields.{bytes_at};
ghost use Rattle.kx_fields.specs.Formats.{read};
ghost use Rattle.kx_laws.specs.inner.Results.{Gives};
ghost use Rattle.elf_image.specs.declared.fault.ElfFault.TheVariants.{Memory};
ghost use Rattle.elf_image.specs.Section.{section_header, section_of, is_section_cut, headers_of, first_of, is_of, place_of, read_table};
ghost use Rattle.elf_image.specs.inner.Section.{IsTable, Lies};

use crate::fault::{ElfFault, ElfPart};
use crate::file_header::Header;
use crate::numbers::{SHT_NOBITS, SHT_NULL};
use kx_fields::Block;
use std::alloc::{AllocError, Global};
use std::marker::Model;

/// A section, by the numbers of its header (ELF gABI, chapter 4, "Sections").
#[derive(Clone, Copy, Drop)]
pub struct Section {
    /// Its type (`sh_type`).
    pub kind: u32,
    /// Whether SHF_ALLOC is among its flags (`sh_flags`).
    pub alloc: bool,
    /// Where its bytes stand in the file (`sh_offset`).
    pub offset: u64,
    /// How many bytes it has (`sh_size`).
    pub size: u64,
    /// Its alignment (`sh_addralign`).
    pub align: u64,
    /// Of a section of relocations, the section that they relocate (`sh_info`).
    pub target: u32,
}

/// A section header (`Elf64_Shdr`), by the numbers that are read of it.
#[derive(Clone, Copy, Drop)]
pub(crate) struct SectionHeader {
    /// The section's type (`sh_type`).
    pub(crate) kind: u32,
    /// Its flags (`sh_flags`).
    pub(crate) flags: u64,
    /// Where its bytes stand in the file (`sh_offset`).
    pub(crate) offset: u64,
    /// How many bytes it has (`sh_size`).
    pub(crate) size: u64,
    /// The section that it goes with (`sh_link`): of a symbol table its string table, of relocations their symbol table.
    pub(crate) link: u32,
    /// More about it (`sh_info`): of relocations the section that they relocate.
    pub(crate) info: u32,
    /// Its alignment (`sh_addralign`).
    pub(crate) align: u64,
    /// How many bytes an entry has, of a section of entries (`sh_entsize`).
    pub(crate) entsize: u64,
}

// The places in an ELF64 section header.
macro_rules! section_header {
    ($($use:tt)*) => {
        kx_fields::fields!($($use)* {
            kind: u32 @ 4,
            flags: u64 @ 8,
            offset: u64 @ 24,
            size: u64 @ 32,
            link: u32 @ 40,
            info: u32 @ 44,
            align: u64 @ 48,
            entsize: u64 @ 56,
        })
    };
}

impl SectionHeader {
    fn numbers(block: &Block<64>) -> SectionHeader
        ensures { result ≡ read section_header block.now }
    {
        section_header!(get block, SectionHeader)
    }

    // The section header at this place of the file.
    fn read(file: &[u8], at: usize) -> SectionHeader
        requires { at + 64 ≤ length file.now }
        ensures { result ≡ read section_header (bytes_at at 64 file.now) }
    {
        SectionHeader::numbers(&Block::<64>::cut(file, at).unwrap())
    }

    // What is told of the section.
    fn section(&self) -> Section
        ensures { result ≡ section_of self.now }
    {
        Section {
            kind: self.kind,
            alloc: self.flags / 2 % 2 == 1,
            offset: self.offset,
            size: self.size,
            align: self.align,
            target: self.info,
        }
    }

    // The section's bytes do not lie in a file of so many bytes.
    fn is_cut(&self, total: usize) -> bool
        ensures { result ≡ is_section_cut total self.now }
    {
        self.kind != SHT_NULL
            && self.kind != SHT_NOBITS
            && u128::from(self.offset) + u128::from(self.size) > total as u128
    }

    /// The section's bytes.
    pub(crate) fn bytes<'a>(&self, file: &'a [u8]) -> &'a [u8]
        requires { self.now.offset + self.now.size ≤ length file.now }
        ensures { result.now ≡ bytes_at self.now.offset self.now.size file.now }
    {
        let (_, behind) = file.split_at(self.offset as usize);
        behind.split_at(self.size as usize).0
    }
}

// The section headers from this place of the file on.
fn read_headers(
    alloc: Global,
    file: &[u8],
    start: u64,
    count: u16,
) -> Result<Vec<SectionHeader>, AllocError>
    requires { start + 64 * count ≤ length file.now }
    ensures { IfOk result (λ v. v.items ≡ headers_of start count file.now) }
{
    let mut headers = Vec::new(alloc);
    headers.reserve_exact(usize::from(count))?;
    for i in 0..count {
        headers.push(SectionHeader::read(file, start as usize + 64 * usize::from(i)))?;
    }
    Ok(headers)
}

// The first section whose bytes do not lie in a file of so many bytes.
fn first_cut(headers: &[SectionHeader], total: usize) -> Option<usize>
    ensures { result ≡ position (is_section_cut total) headers.now }
{
    headers.iter().position(|h| h.is_cut(total))
}

// The first section of this type.
fn first_kind(headers: &[SectionHeader], kind: u32) -> Option<usize>
    ensures value { result ≡ position (λ h. h.kind == kind) headers.now }
    ensures within { IfSome result (λ i. i < length headers.now) }
    ensures kind { IfSome result (λ i. is_of kind (slice_get headers.now i) ≡ true) }
{
    headers.iter().position(|h| h.kind == kind)
}

// How many bytes the sections of this type have, or 2^64 - 1 where there are more.
fn size_of_kind(headers: &[SectionHeader], kind: u32) -> u64 {
    let mut size: u64 = 0;
    for header in headers {
        if header.kind == kind {
            size = size.saturating_add(header.size);
        }
    }
    size
}

/// The section headers of a file.
#[derive(Drop)]
pub(crate) struct SectionTable {
    start: u64,
    headers: Vec<SectionHeader>,
}

impl Model for SectionTable {
    ghost use Rattle.elf_image.specs.Table.{Table};

    ghost Value = { Table };

    ghost view = { λ t. record { start = t.start; headers = t.headers.items } };
}

impl SectionTable {
    /// The section headers of an object, or the first fault.
    pub(crate) fn read(alloc: Global, file: &[u8]) -> Result<SectionTable, ElfFault>
        ensures exact { Gives Memory (λ t. t) result (read_table file.now) }
        ensures valid { IfOk result (IsTable file.now) }
    {
        let header = match Header::read_object(file) {
            Ok(header) => header,
            Err(fault) => return Err(fault),
        };
        let headers = read_headers(alloc, file, header.file.shoff, header.file.shnum)?;
        match first_cut(&headers, file.len()) {
            Some(i) => Err(ElfFault::Truncated {
                part: ElfPart::Section { i },
            }),
            None => Ok(SectionTable {
                start: header.file.shoff,
                headers,
            }),
        }
    }

    /// How many sections there are.
    pub(crate) fn len(&self) -> usize
        ensures { result ≡ length self.now.headers }
    {
        self.headers.len()
    }

    /// The header of the section of this index.
    pub(crate) fn header(&self, i: usize) -> SectionHeader
        requires { i < length self.now.headers }
        ensures value { slice_get self.now.headers i ≡ Some result }
        ensures inside { Lies self.now result }
    {
        self.headers[i]
    }

    /// The header of the section of this index, if it is there.
    pub(crate) fn get(&self, i: usize) -> Option<SectionHeader>
        ensures value { result ≡ slice_get self.now.headers i }
        ensures there { IfSome result (λ _. i < length self.now.headers) }
        ensures inside { IfSome result (Lies self.now) }
    {
        self.headers.get(i).copied()
    }

    /// How many bytes the sections of this type have, counted for each of them.
    pub(crate) fn size_of_kind(&self, kind: u32) -> u64 {
        size_of_kind(&self.headers, kind)
    }

    /// Where the section header of this index stands in the file.
    pub(crate) fn place(&self, i: usize) -> u64
        requires { self.now.start + 64 * i < 2 ^ 63 }
        ensures { result ≡ place_of self.now i }
    {
        self.start + 64 * i as u64
    }

    /// The first section of this type from an index on.
    pub(crate) fn first_of(&self, kind: u32, from: usize) -> Option<usize>
        requires { from ≤ length self.now.headers }
        ensures value { result ≡ first_of kind from self.now.headers }
        ensures within { IfSome result (λ i. i < length self.now.headers) }
        ensures kind { IfSome result (λ i. is_of kind (slice_get self.now.headers i) ≡ true) }
    {
        let (_, behind) = self.headers.split_at(from);
        match first_kind(behind, kind) {
            Some(i) => Some(from + i),
            None => None,
        }
    }

    /// What is told of the sections.
    pub(crate) fn sections(&self, alloc: Global) -> Result<Vec<Section>, AllocError>
        ensures { IfOk result (λ v. v.items ≡ map section_of self.now.headers) }
    {
        self.headers.iter().map(|h| h.section()).collect(alloc)
    }
}
