//! Symbols, and the string table that has their names.

ghost use Rattle.std.specs.Prelude.{◌≡◌, ℕ, ◌+◌, ◌*◌, ◌≤◌, ◌<◌, List, [], length, map, IfSome, IfNone, Some, None, Ok};
ghost use Rattle.std.specs.List.{slice_get};
ghost use Rattle.kx_fields.specs.Fields.{bytes_at};
ghost use Rattle.kx_fields.specs.Formats.{read};
ghost use Rattle.kx_laws.specs.inner.Results.{Gives};
ghost use Rattle.elf_image.specs.declared.fault.ElfFault.TheVariants.{Memory};
ghost use Rattle.elf_image.specs.inner.Section.{IsTable};
ghost use Rattle.elf_image.specs.inner.Symbol.{called, named, IsToLastNul};
ghost use Rattle.elf_image.specs.Symbol.{symbol_entry, is_index, symbol_in, entries_in, strings_of, symbols_in, refuse_second, read_symbols};

use crate::fault::ElfFault;
use crate::numbers::{SHN_ABS, SHN_COMMON, SHT_STRTAB, SHT_SYMTAB};
use crate::section::{SectionHeader, SectionTable};
use crate::strings::{StringTable, length_to_last_nul};
use kx_fields::Block;
use std::alloc::Global;
use std::marker::Model;

/// A symbol (ELF gABI, chapter 4, "Symbol Table"), by the numbers of its entry.
#[derive(Clone, Copy, Drop)]
pub struct Symbol {
    /// Where its name starts in the string table (`st_name`).
    pub name: u32,
    /// The section that it is defined in, or a number that stands for none (`st_shndx`).
    pub section: u16,
    /// Its value (`st_value`): of a symbol in a section, its offset there.
    pub value: u64,
    /// Its size (`st_size`).
    pub size: u64,
}

/// The symbols of an object, in the order of their indexes, and the string table that has their names. Contracts see the
/// list of the symbols, each with the bytes of its name.
#[derive(Drop)]
pub struct SymbolTable {
    /// The symbols.
    pub symbols: Vec<Symbol>,
    /// The texts of their names.
    pub strings: StringTable,
}

impl Model for SymbolTable {
    ghost use Rattle.std.specs.Prelude.{List, map};
    ghost use Rattle.elf_image.specs.Sym.{Sym};
    ghost use Rattle.elf_image.specs.inner.Symbol.{named};

    ghost Value = { List Sym };

    ghost view = { λ t. map (named t.strings) t.symbols.items };
}

// The symbol of this index, if it is there.
fn symbol_at(symbols: &[Symbol], index: usize) -> Option<Symbol>
    ensures { result ≡ slice_get symbols.now index }
{
    symbols.get(index).copied()
}

impl SymbolTable {
    // No symbols.
    fn none(alloc: Global) -> SymbolTable
        ensures { result ≡ [] }
    {
        SymbolTable {
            symbols: Vec::new(alloc),
            strings: StringTable::new(Vec::new(alloc)),
        }
    }

    /// How many symbols there are.
    pub fn len(&self) -> usize
        ensures { result ≡ length self.now }
    {
        self.symbols.len()
    }

    /// The symbol of this index, if it is there.
    pub fn get(&self, index: usize) -> Option<Symbol>
        ensures none { IfNone result (slice_get self.now index ≡ None) }
        ensures some { IfSome result (λ s. (name : List ℕ)
            × (slice_get self.now index ≡ Some (called name s))) }
    {
        symbol_at(&self.symbols, index)
    }
}

// The places in an ELF64 symbol.
macro_rules! symbol_entry {
    ($($use:tt)*) => {
        kx_fields::fields!($($use)* {
            name: u32 @ 0,
            section: u16 @ 6,
            value: u64 @ 8,
            size: u64 @ 16,
        })
    };
}

impl Symbol {
    fn numbers(block: &Block<24>) -> Symbol
        ensures { result ≡ read symbol_entry block.now }
    {
        symbol_entry!(get block, Symbol)
    }

    // The entry at this place of the file.
    fn read(file: &[u8], at: usize) -> Symbol
        requires { at + 24 ≤ length file.now }
        ensures { result ≡ read symbol_entry (bytes_at at 24 file.now) }
    {
        Symbol::numbers(&Block::<24>::cut(file, at).unwrap())
    }

    // Whether its section is one of so many, SHN_ABS or SHN_COMMON.
    fn is_index(&self, sections: usize) -> bool
        ensures { result ≡ is_index sections self.now.section }
    {
        usize::from(self.section) < sections
            || self.section == SHN_ABS
            || self.section == SHN_COMMON
    }
}

// Symbol `k`, which stands at this place of the file. Its name has an end where it starts among the first `ended` bytes of
// the string table.
#[tactic(auto, unfolding(crate::specs::Symbol::symbol_in))]
fn read_symbol(
    file: &[u8],
    strings: &[u8],
    ended: usize,
    sections: usize,
    at: usize,
    k: usize,
) -> Result<Symbol, ElfFault>
    requires inside { at + 24 ≤ length file.now }
    requires ended { IsToLastNul strings.now ended }
    ensures { Gives Memory (named strings.now) result
        (symbol_in file.now strings.now sections at k) }
{
    let symbol = Symbol::read(file, at);
    if symbol.name as usize >= ended {
        return Err(ElfFault::BadString { symbol: k });
    }
    if !symbol.is_index(sections) {
        return Err(ElfFault::BadIndex { at: at as u64 + 6 });
    }
    Ok(symbol)
}

// The whole entries of a symbol table.
fn read_entries(
    alloc: Global,
    file: &[u8],
    sections: usize,
    header: &SectionHeader,
    strings: &[u8],
) -> Result<Vec<Symbol>, ElfFault>
    requires { header.now.offset + header.now.size ≤ length file.now }
    ensures { Gives Memory (λ v. map (named strings.now) v.items) result
        (entries_in file.now sections header.now strings.now) }
{
    let ended = length_to_last_nul(strings);
    let count = (header.size / 24) as usize;
    let mut symbols = Vec::new(alloc);
    symbols.reserve_exact(count)?;
    for k in 0..count {
        let at = header.offset as usize + 24 * k;
        match read_symbol(file, strings, ended, sections, at, k) {
            Ok(symbol) => symbols.push(symbol)?,
            Err(fault) => return Err(fault),
        }
    }
    Ok(symbols)
}

// The same, and the string table.
fn read_named(
    alloc: Global,
    file: &[u8],
    sections: usize,
    header: &SectionHeader,
    strings: &[u8],
) -> Result<SymbolTable, ElfFault>
    requires { header.now.offset + header.now.size ≤ length file.now }
    ensures { Gives Memory (λ t. t) result
        (entries_in file.now sections header.now strings.now) }
{
    match read_entries(alloc, file, sections, header, strings) {
        Ok(symbols) => Ok(SymbolTable {
            symbols,
            strings: StringTable::new(strings.to_vec(alloc)?),
        }),
        Err(fault) => Err(fault),
    }
}

// The string table that a section header, at this place, names.
#[tactic(auto, unfolding(crate::specs::Symbol::strings_of))]
fn strings_of<'a>(
    file: &'a [u8],
    table: &SectionTable,
    place: u64,
    header: &SectionHeader,
) -> Result<&'a [u8], ElfFault>
    requires table { IsTable file.now table.now }
    requires place { place + 64 ≤ length file.now }
    ensures { Gives Memory (λ s. s.now) result (strings_of file.now table.now place header.now) }
{
    if header.entsize != 24 {
        return Err(ElfFault::BadEntrySize { at: place + 56 });
    }
    match table.get(header.link as usize) {
        Some(strings) => {
            if strings.kind == SHT_STRTAB {
                Ok(strings.bytes(file))
            } else {
                Err(ElfFault::BadIndex { at: place + 40 })
            }
        }
        None => Err(ElfFault::BadIndex { at: place + 40 }),
    }
}

// The symbols of a symbol table, whose header stands at this place.
fn read_table(
    alloc: Global,
    file: &[u8],
    table: &SectionTable,
    place: u64,
    header: &SectionHeader,
) -> Result<SymbolTable, ElfFault>
    requires table { IsTable file.now table.now }
    requires place { place + 64 ≤ length file.now }
    requires inside { header.now.offset + header.now.size ≤ length file.now }
    ensures { Gives Memory (λ t. t) result (symbols_in file.now table.now place header.now) }
{
    match strings_of(file, table, place, header) {
        Ok(strings) => read_named(alloc, file, table.len(), header, strings),
        Err(fault) => Err(fault),
    }
}

// Refuses a symbol table behind that of this index.
fn refuse_second(file: &[u8], table: &SectionTable, i: usize) -> Result<(), ElfFault>
    requires table { IsTable file.now table.now }
    requires there { i < length table.now.headers }
    ensures { result ≡ refuse_second table.now i }
{
    match table.first_of(SHT_SYMTAB, i + 1) {
        Some(second) => Err(ElfFault::BadIndex {
            at: table.place(second) + 4,
        }),
        None => Ok(()),
    }
}

/// The symbols of an object, or the first fault.
pub(crate) fn read_symbols(
    alloc: Global,
    file: &[u8],
    table: &SectionTable,
) -> Result<SymbolTable, ElfFault>
    requires { IsTable file.now table.now }
    ensures { Gives Memory (λ t. t) result (read_symbols file.now table.now) }
{
    let i = match table.first_of(SHT_SYMTAB, 0) {
        Some(i) => i,
        None => return Ok(SymbolTable::none(alloc)),
    };
    let header = table.header(i);
    let symbols = match read_table(alloc, file, table, table.place(i), &header) {
        Ok(symbols) => symbols,
        Err(fault) => return Err(fault),
    };
    match refuse_second(file, table, i) {
        Ok(()) => Ok(symbols),
        Err(fault) => Err(fault),
    }
}
