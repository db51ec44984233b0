//! A purgatory that is read, and linked at its place.

ghost use Rattle.std.specs.Prelude.{◌≡◌, ◌-◌, option_map, length, Some, IfOk};
ghost use Rattle.kx_laws.specs.inner.Results.{Gives};
ghost use Rattle.kexec_plan.specs.Purgatory.{read_purgatory, some_purgatory, purgatory_rule, linked_at, arm};
ghost use Rattle.kexec_plan.specs.inner.Purgatory.{HasSymbols, IsLinkable};

use crate::places::{PlaceRule, Site};
use crate::symbols::{Symbols, registers_of};
use crate::table::highest;
use elf_image::{Object, read_object};
use kx_pages::Start;
use plan_faults::{Part, PlanFault};
use purgatory_link::{Linked, link, size, write_at};
use std::alloc::Global;
use std::marker::Model;

/// A purgatory that was read.
#[derive(Drop)]
pub(crate) struct Purgatory {
    object: Object,
    file: Vec<u8>,
    size: u64,
}

impl Model for Purgatory {
    ghost use Rattle.kexec_plan.specs.Purgatory.{PurgatoryValue};
    ghost use Rattle.kexec_plan.specs.inner.Purgatory.{IsPurgatory};

    ghost Value = { PurgatoryValue };

    ghost view = { λ p. record { object = p.object; file = p.file.items; size = p.size } };

    ghost invariant = { λ p. IsPurgatory
        (record { object = p.object; file = p.file.items; size = p.size }) };
}

/// A linked purgatory.
#[derive(Drop)]
pub(crate) struct Linkage {
    /// The address of its first byte.
    pub(crate) base: u64,
    /// Its bytes.
    pub(crate) bytes: Vec<u8>,
    /// Its symbols.
    pub(crate) symbols: Symbols,
}

impl Model for Linkage {
    ghost use Rattle.kexec_plan.specs.Purgatory.{Linkage as LinkageValue};

    ghost Value = { LinkageValue };

    ghost view = { λ l. record { base = l.base; bytes = l.bytes.items; symbols = l.symbols } };
}

/// The purgatory of this file, or why it is none.
#[tactic(auto, unfolding(crate::specs::Purgatory::read_purgatory))]
fn read_purgatory(alloc: Global, file: Vec<u8>) -> Result<Purgatory, PlanFault>
    ensures { Gives PlanFault.Memory (λ p. p) result (read_purgatory file.items) }
{
    let object = read_object(alloc, &file).map_err(PlanFault::of_object)?;
    let size = size(&object)?;
    Ok(Purgatory { object, file, size })
}

/// The same where there is a file.
#[tactic(auto, unfolding(crate::specs::Purgatory::some_purgatory))]
pub(crate) fn some_purgatory(
    alloc: Global,
    file: Option<Vec<u8>>,
) -> Result<Option<Purgatory>, PlanFault>
    ensures { Gives PlanFault.Memory (λ p. p) result
        (some_purgatory (option_map (λ v. v.items) file)) }
{
    match file {
        Some(file) => Ok(Some(read_purgatory(alloc, file)?)),
        None => Ok(None),
    }
}

/// The rule of a purgatory's place, if there is one.
pub(crate) fn some_purgatory_rule(purgatory: &Option<Purgatory>, most: u64) -> Option<PlaceRule>
    ensures { result ≡ option_map (purgatory_rule most) purgatory.now }
{
    let purgatory = purgatory.as_ref()?;
    Some(highest(Part::Purgatory, purgatory.size, most))
}

impl Purgatory {
    /// The purgatory linked at its place.
    #[tactic(auto, unfolding(crate::specs::Purgatory::linked_at))]
    pub(crate) fn link_at(&self, alloc: Global, site: Site) -> Result<Linkage, PlanFault>
        requires { IsLinkable (Some self.now) (Some site) }
        ensures exact { Gives PlanFault.Memory (λ l. l) result (linked_at self.now site) }
        ensures symbols { IfOk result (λ l. HasSymbols l.base (length l.bytes) l.symbols) }
    {
        let linked = link(alloc, &self.object, &self.file, site.at)?;
        let symbols = Symbols::find(&linked)?;
        let Linked { base, bytes, .. } = linked;
        Ok(Linkage {
            base,
            bytes,
            symbols,
        })
    }
}

/// Puts registers, table and digest in place of the symbols, in this order.
#[tactic(auto, unfolding(crate::specs::Purgatory::arm))]
pub(crate) fn arm(
    bytes: &mut [u8],
    base: u64,
    symbols: Symbols,
    start: Start,
    table: &[u8],
    digest: &[u8],
)
    requires symbols { HasSymbols base (length bytes.old) symbols }
    requires table { length table.now ≡ 256 }
    requires digest { length digest.now ≡ 32 }
    ensures { bytes.new
        ≡ arm (record { base = base; bytes = bytes.old; symbols = symbols }) start table.now
        digest.now }
{
    let registers = registers_of(start);
    write_at(bytes, (symbols.regs - base) as usize, registers.bytes());
    write_at(bytes, (symbols.regions - base) as usize, table);
    write_at(bytes, (symbols.digest - base) as usize, digest);
}
