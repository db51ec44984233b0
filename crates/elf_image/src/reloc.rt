//! Relocations with addends.

ghost use Rattle.std.specs.Prelude.{◌≡◌, ◌+◌, ◌*◌, ◌^◌, ◌≤◌, ◌<◌, true, length, IfOk};
ghost use Rattle.std.specs.List.{slice_get};
ghost use Rattle.kx_fields.specs.Fields.{bytes_at};
ghost use Rattle.kx_fields.specs.Formats.{read};
ghost use Rattle.kx_laws.specs.Results.{unless};
ghost use Rattle.kx_laws.specs.inner.Results.{Gives};
ghost use Rattle.elf_image.specs.declared.fault.ElfFault.TheVariants.{Memory};
ghost use Rattle.elf_image.specs.inner.Gathered.{Adds};
ghost use Rattle.elf_image.specs.Numbers.{sht_symtab};
ghost use Rattle.elf_image.specs.Section.{is_of};
ghost use Rattle.elf_image.specs.inner.Section.{IsTable};
ghost use Rattle.elf_image.specs.Reloc.{rela, rela_fault, entry_of, reloc_section, relocs_at, read_relocs, test_symbols};
ghost use Rattle.elf_image.specs.inner.Reloc.{AreInside, has_symbol};
ghost use Rattle.elf_image.specs.inner.Runs.{AreRuns};

use crate::fault::ElfFault;
use crate::numbers::{SHT_RELA, SHT_SYMTAB};
use crate::runs::EntryRuns;
use crate::section::{SectionHeader, SectionTable};
use kx_fields::Block;
use std::alloc::{AllocError, Global};

/// What the symbol counts in `r_info`: its type stands below.
const HALF: u64 = 0x1_0000_0000;

/// A relocation with an addend (ELF gABI, chapter 4, "Relocation").
#[derive(Clone, Copy, Drop)]
pub struct Reloc {
    /// The section that it relocates.
    pub target: usize,
    /// Where its field stands in that section (`r_offset`).
    pub offset: u64,
    /// Its type, the low half of `r_info`.
    pub kind: u32,
    /// Its symbol, the high half of `r_info`.
    pub symbol: usize,
    /// Its addend (`r_addend`).
    pub addend: i64,
    /// The section that it stands in.
    pub section: usize,
    /// Its number in that section.
    pub entry: usize,
}

/// An entry of a section of relocations (`Elf64_Rela`).
#[derive(Clone, Copy)]
pub(crate) struct Rela {
    /// Where its field stands (`r_offset`).
    pub(crate) offset: u64,
    /// Its symbol and its type (`r_info`).
    pub(crate) info: u64,
    /// Its addend (`r_addend`).
    pub(crate) addend: i64,
}

// The places in an ELF64 relocation with an addend.
macro_rules! rela {
    ($($use:tt)*) => {
        kx_fields::fields!($($use)* {
            offset: u64 @ 0,
            info: u64 @ 8,
            addend: i64 @ 16,
        })
    };
}

impl Rela {
    fn numbers(block: &Block<24>) -> Rela
        ensures { result ≡ read rela block.now }
    {
        rela!(get block, Rela)
    }

    // The entry at this place of the file.
    fn read(file: &[u8], at: usize) -> Rela
        requires { at + 24 ≤ length file.now }
        ensures { result ≡ read rela (bytes_at at 24 file.now) }
    {
        Rela::numbers(&Block::<24>::cut(file, at).unwrap())
    }
}

/// A section of relocations (`SHT_RELA`). Its entries stay in the file, and each is read when it is asked for: an object
/// may have very many of them.
#[derive(Clone, Copy, Drop)]
pub struct RelocSection {
    /// Its index.
    pub section: usize,
    /// The section that it relocates (`sh_info`).
    pub target: usize,
    /// Where its first entry stands in the file (`sh_offset`).
    pub offset: usize,
    /// How many whole entries it has.
    pub count: usize,
}

impl RelocSection {
    /// The relocation of this number, in the file that the object was read from.
    #[tactic(auto, unfolding(crate::specs::Reloc::entry_of))]
    pub fn reloc(&self, file: &[u8], entry: usize) -> Reloc
        requires inside { AreInside file.now self.now }
        requires entry { entry < self.now.count }
        ensures { result ≡ entry_of file.now self.now entry }
    {
        let rela = Rela::read(file, self.offset + 24 * entry);
        Reloc {
            target: self.target,
            offset: rela.offset,
            kind: (rela.info % HALF) as u32,
            symbol: (rela.info / HALF) as usize,
            addend: rela.addend,
            section: self.section,
            entry,
        }
    }

    // Refuses the first relocation whose symbol is none of so many. Those that are noted to have one are passed over.
    fn test_symbols(&self, file: &[u8], symbols: usize, runs: &EntryRuns) -> Result<(), ElfFault>
        requires inside { AreInside file.now self.now }
        requires runs { AreRuns (has_symbol file.now symbols) runs.now }
        ensures { result ≡ test_symbols file.now symbols self.now }
    {
        for entry in runs.run(self.offset)..self.count {
            if self.reloc(file, entry).symbol >= symbols {
                let at = self.offset + 24 * entry + 8;
                return Err(ElfFault::BadIndex { at: at as u64 });
            }
        }
        Ok(())
    }
}

// Whether an entry stands at this byte of the file, and its symbol is one of so many.
fn has_symbol(file: &[u8], at: usize, symbols: usize) -> bool
    ensures { result ≡ true → has_symbol file.now symbols at ≡ true }
{
    if file.len() < 24 || at > file.len() - 24 {
        return false;
    }
    Rela::read(file, at).info / HALF < symbols as u64
}

// Runs of entries whose symbols are some of so many, from each byte of the file on.
fn note_runs(alloc: Global, file: &[u8], symbols: usize) -> Result<EntryRuns, AllocError>
    ensures { IfOk result (AreRuns (has_symbol file.now symbols)) }
{
    let mut runs = EntryRuns::of_file(alloc, file.len())?;
    for noted in 0..file.len() {
        runs.push(has_symbol(file, file.len() - 1 - noted, symbols))?;
    }
    Ok(runs)
}

// The same where the sections of relocations have more bytes than the file, so that some have the same ones. Else each
// entry is tested but once anyway, and nothing is noted.
fn runs_of(
    alloc: Global,
    file: &[u8],
    table: &SectionTable,
    symbols: usize,
) -> Result<EntryRuns, AllocError>
    ensures { IfOk result (AreRuns (has_symbol file.now symbols)) }
{
    if table.size_of_kind(SHT_RELA) > file.len() as u64 {
        note_runs(alloc, file, symbols)
    } else {
        Ok(EntryRuns::none(alloc))
    }
}

// The section of this index and header, as one of relocations.
fn reloc_section(section: usize, header: &SectionHeader) -> RelocSection
    ensures { result ≡ reloc_section section header.now }
{
    RelocSection {
        section,
        target: header.info as usize,
        offset: header.offset as usize,
        count: (header.size / 24) as usize,
    }
}

// Whether the section of this index is a symbol table.
fn is_symtab(table: &SectionTable, index: u32) -> bool
    ensures { result ≡ is_of sht_symtab (slice_get table.now.headers index) }
{
    match table.get(index as usize) {
        Some(header) => header.kind == SHT_SYMTAB,
        None => false,
    }
}

// Tests a section of relocations, whose header stands at this place.
#[tactic(auto, unfolding(crate::specs::Reloc::rela_fault))]
fn test_section(table: &SectionTable, place: u64, header: &SectionHeader) -> Result<(), ElfFault>
    requires { place + 64 < 2 ^ 63 }
    ensures { result ≡ unless (rela_fault table.now place header.now) }
{
    if header.entsize != 24 {
        return Err(ElfFault::BadEntrySize { at: place + 56 });
    }
    if !is_symtab(table, header.link) {
        return Err(ElfFault::BadIndex { at: place + 40 });
    }
    if header.info as usize >= table.len() {
        return Err(ElfFault::BadIndex { at: place + 44 });
    }
    Ok(())
}

// Puts the section of this index behind the others, if it is one of relocations.
fn add_section(
    out: &mut Vec<RelocSection>,
    file: &[u8],
    table: &SectionTable,
    symbols: usize,
    runs: &EntryRuns,
    i: usize,
) -> Result<(), ElfFault>
    requires table { IsTable file.now table.now }
    requires runs { AreRuns (has_symbol file.now symbols) runs.now }
    ensures { Adds out.old.items out.new.items result (relocs_at file.now table.now symbols i) }
{
    let header = match table.get(i) {
        Some(header) => header,
        None => return Ok(()),
    };
    if header.kind != SHT_RELA {
        return Ok(());
    }
    match test_section(table, table.place(i), &header) {
        Ok(()) => (),
        Err(fault) => return Err(fault),
    }
    let section = reloc_section(i, &header);
    match section.test_symbols(file, symbols, runs) {
        Ok(()) => (),
        Err(fault) => return Err(fault),
    }
    out.push(section)?;
    Ok(())
}

/// The sections of relocations of an object that has so many symbols, or the first fault.
pub(crate) fn read_relocs(
    alloc: Global,
    file: &[u8],
    table: &SectionTable,
    symbols: usize,
) -> Result<Vec<RelocSection>, ElfFault>
    requires { IsTable file.now table.now }
    ensures { Gives Memory (λ v. v.items) result (read_relocs file.now table.now symbols) }
{
    let runs = runs_of(alloc, file, table, symbols)?;
    let mut sections = Vec::new(alloc);
    for i in 0..table.len() {
        match add_section(&mut sections, file, table, symbols, &runs, i) {
            Ok(()) => (),
            Err(fault) => return Err(fault),
        }
    }
    Ok(sections)
}
