//! A linked object: how many bytes it has, how it is made, and its symbols.

ghost use Rattle.std.specs.Prelude.{◌≡◌, ℕ, ◌+◌, ◌%◌, ◌^◌, ◌<◌, ◌≤◌, IfOk, OnOk, IfErr, OnErr, length, Ok, Err};
ghost use Rattle.kx_laws.specs.inner.Results.{Gives};
ghost use Rattle.kx_fields.specs.Fields.{with_bytes};
ghost use Rattle.elf_image.specs.inner.Object.{IsObject};
ghost use Rattle.purgatory_link.specs.declared.fault.LinkFault.TheVariants.{Memory};
ghost use Rattle.purgatory_link.specs.Layout.{end, in_pages, linked_size};
ghost use Rattle.purgatory_link.specs.Link.{link_at, linking};
ghost use Rattle.purgatory_link.specs.inner.Meaning.{AllHold, KeepsOthers};
ghost use Rattle.purgatory_link.specs.Set.{symbol_of, is_inside};
ghost use Rattle.purgatory_link.specs.inner.Set.{setting};

use crate::fault::LinkFault;
use crate::names::Names;
use crate::purgatory_symbol::PurgatorySymbol;
use crate::{layout, relocate, symbols};
use elf_image::Object;
use std::alloc::Global;
use std::marker::Model;

/// A linked object.
#[derive(Drop)]
pub struct Linked {
    /// The address of its first byte.
    pub base: u64,
    /// Its bytes: whole pages.
    pub bytes: Vec<u8>,
    /// The symbols that are defined in loaded sections.
    pub names: Names,
}

impl Model for Linked {
    ghost use Rattle.purgatory_link.specs.Sym.{Image};

    ghost Value = { Image };

    ghost view = { λ l. record { base = l.base; bytes = l.bytes.items; names = l.names } };
}

/// Puts these bytes in place of as many from this place on.
pub fn write_at(bytes: &mut [u8], at: usize, these: &[u8])
    requires { at + length these.now ≤ length bytes.old }
    ensures { bytes.new ≡ with_bytes at these.now bytes.old }
{
    bytes[at..at + these.len()].copy_from_slice(these);
}

impl Linked {
    /// The address and the size of the symbol of this name that is defined in a loaded section: of several the one with
    /// the least index.
    pub fn symbol(&self, name: &[u8]) -> Option<(u64, u64)>
        ensures { result ≡ symbol_of self.now.names name.now }
    {
        self.names.find(name)
    }

    /// Whether so many bytes from this address on are linked bytes.
    pub fn is_inside(&self, address: u64, size: u64) -> bool
        ensures { result ≡ is_inside self.now address size }
    {
        let length = self.bytes.len() as u64;
        address >= self.base
            && address - self.base <= length
            && size <= length - (address - self.base)
    }

    /// Puts these bytes in place of the symbol of this name, which has as many.
    #[tactic(auto, unfolding(crate::specs::inner::Set::setting))]
    pub fn set_symbol(&mut self, name: &[u8], bytes: &[u8]) -> Result<(), LinkFault>
        ensures set { OnOk result (setting self.old name.now bytes.now ≡ Ok self.new) }
        ensures refused { IfErr result (λ e. setting self.old name.now bytes.now ≡ Err e) }
        ensures unchanged { OnErr result (self.new ≡ self.old) }
    {
        let (address, size) = match self.symbol(name) {
            Some(symbol) => symbol,
            None => {
                return Err(LinkFault::NoSymbol {
                    symbol: PurgatorySymbol::called(name),
                });
            }
        };
        if bytes.len() as u64 != size {
            return Err(LinkFault::WrongSize { found: size });
        }
        if !self.is_inside(address, size) {
            return Err(LinkFault::WrongSize { found: size });
        }
        write_at(&mut self.bytes, (address - self.base) as usize, bytes);
        Ok(())
    }
}

/// How many bytes the linked object has: whole pages, at least one.
pub fn size(object: &Object) -> Result<u64, LinkFault>
    ensures exact { result ≡ linked_size object.now.sections }
    ensures some { IfOk result (λ n. 4096 ≤ n) }
    ensures most { IfOk result (λ n. n ≤ 16777216) }
    ensures pages { IfOk result (λ n. n % 4096 ≡ 0) }
{
    layout::linked_size(&object.sections)
}

// The object of `size` bytes, linked.
fn link_sized(
    alloc: Global,
    object: &Object,
    file: &[u8],
    base: u64,
    size: u64,
) -> Result<Linked, LinkFault>
    requires object { IsObject object.now file.now }
    requires base { base < 2 ^ 46 }
    requires size { size ≡ in_pages (end 0 object.now.sections) }
    requires small { end 0 object.now.sections ≤ 16777216 }
    ensures exact { Gives Memory (λ l. l) result (link_at base object.now file.now size) }
    ensures fields { IfOk result (λ l. AllHold base object.now file.now l.bytes) }
    ensures others { IfOk result (λ l. KeepsOthers object.now file.now l.bytes) }
{
    let starts = layout::starts(alloc, &object.sections)?;
    let bytes = layout::lay(alloc, &object.sections, file, size)?;
    let bytes = match relocate::relocate(alloc, base, object, file, &starts, bytes) {
        Ok(bytes) => bytes,
        Err(fault) => return Err(fault),
    };
    let names = symbols::names_of(alloc, base, &starts, &object.symbols)?;
    Ok(Linked { base, bytes, names })
}

/// The object of this file, linked at `base`, or the first fault.
pub fn link(alloc: Global, object: &Object, file: &[u8], base: u64) -> Result<Linked, LinkFault>
    requires object { IsObject object.now file.now }
    requires base { base % 4096 ≡ 0 }
    requires below { (n : ℕ) → linked_size object.now.sections ≡ Ok n → base + n < 2 ^ 46 }
    // What it is, or the first fault.
    ensures exact { Gives Memory (λ l. l) result (linking base object.now file.now) }
    // Each relocated field holds the value of its formula.
    ensures fields { IfOk result (λ l. AllHold base object.now file.now l.bytes) }
    // Every other byte is its section's, or zero.
    ensures others { IfOk result (λ l. KeepsOthers object.now file.now l.bytes) }
{
    match layout::refuse_rel(&object.sections) {
        Ok(()) => (),
        Err(fault) => return Err(fault),
    }
    let size = match layout::linked_size(&object.sections) {
        Ok(size) => size,
        Err(fault) => return Err(fault),
    };
    link_sized(alloc, object, file, base, size)
}
