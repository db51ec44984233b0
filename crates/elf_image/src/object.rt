//! A relocatable object.

ghost use Rattle.std.specs.Prelude.{IfOk};
ghost use Rattle.kx_laws.specs.inner.Results.{Gives};
ghost use Rattle.elf_image.specs.declared.fault.ElfFault.TheVariants.{Memory};
ghost use Rattle.elf_image.specs.Object.{object_reading};
ghost use Rattle.elf_image.specs.inner.Object.{IsObject};

use crate::fault::ElfFault;
use crate::reloc::{RelocSection, read_relocs};
use crate::section::{Section, SectionTable};
use crate::symbol::{SymbolTable, read_symbols};
use std::alloc::Global;
use std::marker::Model;

/// A relocatable object: ELF64 for x86-64, of type ET_REL (ELF gABI, chapter 4).
#[derive(Drop)]
pub struct Object {
    /// The sections, in the order of their indexes.
    pub sections: Vec<Section>,
    /// The symbols, in the order of their indexes.
    pub symbols: SymbolTable,
    /// The sections of relocations with addends, in the order of their indexes.
    pub reloc_sections: Vec<RelocSection>,
}

impl Model for Object {
    ghost use Rattle.elf_image.specs.Object.{Relocatable};

    ghost Value = { Relocatable };

    ghost view = { λ o. record {
      sections = o.sections.items;
      symbols = o.symbols;
      reloc_sections = o.reloc_sections.items;
    } };
}

/// What a relocatable object says: ELF64 for x86-64, of type ET_REL (ELF gABI, chapter 4, "Sections", "Symbol Table",
/// "String Table" and "Relocation").
pub fn read_object(alloc: Global, bytes: &[u8]) -> Result<Object, ElfFault>
    // What it is, or the first fault.
    ensures exact { Gives Memory (λ o. o) result (object_reading bytes.now) }
    // Its sections lie in the file, and its indexes are those of sections and symbols.
    ensures object { IfOk result (λ o. IsObject o bytes.now) }
{
    let table = match SectionTable::read(alloc, bytes) {
        Ok(table) => table,
        Err(fault) => return Err(fault),
    };
    let symbols = match read_symbols(alloc, bytes, &table) {
        Ok(symbols) => symbols,
        Err(fault) => return Err(fault),
    };
    let reloc_sections = match read_relocs(alloc, bytes, &table, symbols.len()) {
        Ok(sections) => sections,
        Err(fault) => return Err(fault),
    };
    Ok(Object {
        sections: table.sections(alloc)?,
        symbols,
        reloc_sections,
    })
}
