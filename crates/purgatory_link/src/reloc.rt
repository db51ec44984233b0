//! What relocations put.

ghost use Rattle.std.specs.Prelude.{◌≡◌, List, ◌+◌, ◌<◌, ◌≤◌, ◌^◌, IfOk, Some};
ghost use Rattle.purgatory_link.specs.declared.put.Put.{Put};
ghost use Rattle.purgatory_link.specs.Formulas.{formula, wide};
ghost use Rattle.purgatory_link.specs.Symbols.{start_at};
ghost use Rattle.purgatory_link.specs.Relocs.{size_at, test_place, put_value, put_of};
ghost use Rattle.purgatory_link.specs.inner.Relocs.{HasRoom};
ghost use Rattle.purgatory_link.specs.inner.Taken.{AreTaken};

use crate::fault::LinkFault;
use crate::form::Form;
use crate::put::Put;
use crate::symbols::{start_at, symbol_value};
use crate::taken::Taken;
use elf_image::{Object, Reloc};

// The size of the section of this index.
fn size_at(object: &Object, index: usize) -> u64
    ensures { result ≡ size_at object.now index }
{
    match object.sections.get(index) {
        Some(section) => section.size,
        None => 0,
    }
}

// Refuses a field of `wide` bytes in the section that starts at this place, where it does not lie in the section or
// meets an earlier one.
#[tactic(auto, unfolding(crate::specs::Relocs::test_place))]
fn test_place(
    base: u64,
    object: &Object,
    taken: &Taken,
    reloc: &Reloc,
    start: u64,
    wide: u64,
) -> Result<(), LinkFault>
    requires base { base < 2 ^ 46 }
    requires wide { wide ≤ 8 }
    requires room { start + size_at object.now reloc.now.target ≤ 16777216 }
    ensures exact { (puts : List Put) → AreTaken puts taken.now
        → result ≡ test_place base object.now puts reloc.now (start + reloc.now.offset) wide }
    ensures within { IfOk result (λ _. 0 < wide
        → reloc.now.offset + wide ≤ size_at object.now reloc.now.target) }
{
    if wide == 0 {
        return Ok(());
    }
    let size = size_at(object, reloc.target);
    if size < wide || size - wide < reloc.offset {
        return Err(LinkFault::OutsideSection {
            section: reloc.section,
            entry: reloc.entry,
        });
    }
    let at = start + reloc.offset;
    if taken.meets(at as usize, wide as usize) {
        return Err(LinkFault::RelocsMeet { place: base + at });
    }
    Ok(())
}

// The field of a relocation in the section that starts at this place, with the value.
fn put_value(
    base: u64,
    start: u64,
    form: Form,
    symbol: u64,
    reloc: &Reloc,
) -> Result<Option<Put>, LinkFault>
    requires base { base < 2 ^ 46 }
    requires at { 0 < wide form → start + reloc.now.offset ≤ 16777216 }
    ensures { result ≡ (let at = start + reloc.now.offset in
        put_value base at form (formula form symbol reloc.now.addend (base + at))) }
{
    if let Form::Empty = form {
        return Ok(None);
    }
    let at = start + reloc.offset;
    match form.field(form.value(symbol, reloc.addend, base + at)) {
        Some(value) => Ok(Some(Put {
            at: at as usize,
            wide: form.wide() as usize,
            value,
        })),
        None => Err(LinkFault::DoesNotFit { place: base + at }),
    }
}

/// What a relocation puts, and where, behind the earlier ones.
pub(crate) fn put_of(
    base: u64,
    object: &Object,
    starts: &[Option<u64>],
    taken: &Taken,
    reloc: &Reloc,
) -> Result<Option<Put>, LinkFault>
    requires base { base < 2 ^ 46 }
    requires room { HasRoom object.now starts.now 16777216 }
    ensures { (puts : List Put) → AreTaken puts taken.now
        → result ≡ put_of base object.now starts.now puts reloc.now }
{
    let start = match start_at(starts, reloc.target) {
        Some(start) => start,
        None => return Ok(None),
    };
    let kind = reloc.kind;
    let form = match Form::of(kind) {
        Some(form) => form,
        None => return Err(LinkFault::UnknownReloc { kind: kind as u64 }),
    };
    match test_place(base, object, taken, reloc, start, form.wide()) {
        Ok(()) => (),
        Err(fault) => return Err(fault),
    }
    let symbol = match symbol_value(base, starts, &object.symbols, reloc.symbol) {
        Ok(symbol) => symbol,
        Err(fault) => return Err(fault),
    };
    put_value(base, start, form, symbol, reloc)
}
