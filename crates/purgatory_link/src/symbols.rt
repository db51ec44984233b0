//! The values and the names of symbols.

ghost use Rattle.std.specs.Prelude.{◌≡◌, ℕ, List, [], ◌∷◌, ◌++◌, map, IfOk, OnOk, Some};
ghost use Rattle.std.specs.List.{flat_map};
ghost use Rattle.elf_image.specs.inner.Symbol.{called, named};
ghost use Rattle.purgatory_link.specs.Symbols.{start_at, home, address, value_of, symbol_value};
ghost use Rattle.purgatory_link.specs.Symbols.{name_at, null_symbols, named_symbols, names_of};
ghost use Rattle.purgatory_link.specs.inner.Names.{with_text};

use crate::fault::LinkFault;
use crate::names::{Name, Names};
use elf_image::{SHN_ABS, SHN_COMMON, SHN_UNDEF, Symbol, SymbolTable};
use std::alloc::{AllocError, Global};

/// Where the section of this index starts, if it is there and loaded.
pub(crate) fn start_at(starts: &[Option<u64>], index: usize) -> Option<u64>
    ensures { result ≡ start_at starts.now index }
{
    match starts.get(index) {
        Some(start) => *start,
        None => None,
    }
}

// Where the section starts in which the symbol is defined, if it is loaded.
fn home(starts: &[Option<u64>], symbol: &Symbol) -> Option<u64>
    ensures { (name : List ℕ) → result ≡ home starts.now (called name symbol.now) }
{
    let section = symbol.section;
    if section == SHN_UNDEF || section == SHN_ABS || section == SHN_COMMON {
        return None;
    }
    start_at(starts, usize::from(section))
}

// The address of a symbol of the section that starts at this place.
fn address(base: u64, start: u64, symbol: &Symbol) -> u64
    ensures { (name : List ℕ) → result ≡ address base start (called name symbol.now) }
{
    base.wrapping_add(start).wrapping_add(symbol.value)
}

// The value of a symbol other than 0, which has this index, or why it has none.
fn value_of(
    base: u64,
    starts: &[Option<u64>],
    index: usize,
    symbol: &Symbol,
) -> Result<u64, LinkFault>
    ensures { (name : List ℕ)
        → result ≡ value_of base starts.now index (Some (called name symbol.now)) }
{
    if symbol.section == SHN_ABS {
        return Ok(symbol.value);
    }
    if symbol.section == SHN_COMMON {
        return Err(LinkFault::Common { symbol: index });
    }
    match home(starts, symbol) {
        Some(start) => Ok(address(base, start, symbol)),
        None => Err(LinkFault::Undefined { symbol: index }),
    }
}

/// The value of the symbol of this index, or why it has none.
#[tactic(auto, unfolding(crate::specs::Symbols::symbol_value))]
pub(crate) fn symbol_value(
    base: u64,
    starts: &[Option<u64>],
    symbols: &SymbolTable,
    index: usize,
) -> Result<u64, LinkFault>
    ensures { result ≡ symbol_value base starts.now symbols.now index }
{
    if index == 0 {
        return Ok(0);
    }
    let Some(symbol) = symbols.get(index) else {
        return Err(LinkFault::Undefined { symbol: index });
    };
    value_of(base, starts, index, &symbol)
}

// Puts the symbol behind the names, with this address.
fn push_name(names: &mut Vec<Name>, address: u64, symbol: &Symbol) -> Result<(), AllocError>
    ensures { OnOk result ((strings : List ℕ) → map (with_text strings) names.new.items
        ≡ map (with_text strings) names.old.items
        ++ name_at address (named strings symbol.now) ∷ []) }
{
    names.push(Name {
        name: symbol.name,
        address,
        size: symbol.size,
    })?;
    Ok(())
}

// Puts symbol 0 behind the names, if its entry names a loaded section: its value is 0 all the same.
fn push_null(
    names: &mut Vec<Name>,
    starts: &[Option<u64>],
    symbol: &Symbol,
) -> Result<(), AllocError>
    ensures { OnOk result ((strings : List ℕ) → map (with_text strings) names.new.items
        ≡ map (with_text strings) names.old.items
        ++ null_symbols starts.now (named strings symbol.now)) }
{
    match home(starts, symbol) {
        Some(_) => push_name(names, 0, symbol),
        None => Ok(()),
    }
}

// Puts another symbol behind the names, if it is defined in a loaded section.
fn push_defined(
    names: &mut Vec<Name>,
    base: u64,
    starts: &[Option<u64>],
    symbol: &Symbol,
) -> Result<(), AllocError>
    ensures { OnOk result ((strings : List ℕ) → map (with_text strings) names.new.items
        ≡ map (with_text strings) names.old.items
        ++ named_symbols base starts.now (named strings symbol.now)) }
{
    match home(starts, symbol) {
        Some(start) => push_name(names, address(base, start, symbol), symbol),
        None => Ok(()),
    }
}

// Puts those of these symbols behind the names that are defined in loaded sections, in their order.
fn push_all(
    names: &mut Vec<Name>,
    base: u64,
    starts: &[Option<u64>],
    symbols: &[Symbol],
) -> Result<(), AllocError>
    ensures { OnOk result ((strings : List ℕ) → map (with_text strings) names.new.items
        ≡ map (with_text strings) names.old.items
        ++ flat_map (named_symbols base starts.now) (map (named strings) symbols.now)) }
{
    for symbol in symbols {
        push_defined(names, base, starts, symbol)?;
    }
    Ok(())
}

// The names of these symbols, whatever string table they are in.
fn list_of(
    alloc: Global,
    base: u64,
    starts: &[Option<u64>],
    symbols: &[Symbol],
) -> Result<Vec<Name>, AllocError>
    ensures { IfOk result (λ v. (strings : List ℕ) → map (with_text strings) v.items
        ≡ names_of base starts.now (map (named strings) symbols.now)) }
{
    let mut names = Vec::new(alloc);
    if let Some((null, others)) = symbols.split_first() {
        push_null(&mut names, starts, null)?;
        push_all(&mut names, base, starts, others)?;
    }
    Ok(names)
}

/// The names, addresses and sizes of the symbols that are defined in loaded sections, in the order of their indexes.
/// Symbol 0 has the address 0.
pub(crate) fn names_of(
    alloc: Global,
    base: u64,
    starts: &[Option<u64>],
    symbols: &SymbolTable,
) -> Result<Names, AllocError>
    ensures { IfOk result (λ names. names ≡ names_of base starts.now symbols.now) }
{
    let list = list_of(alloc, base, starts, &symbols.symbols)?;
    let strings = symbols.strings.copy(alloc)?;
    Ok(Names::new(list, strings))
}
