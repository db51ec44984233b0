//! All relocations.

ghost use Rattle.std.specs.Prelude.{◌≡◌, List, ◌<◌, ◌≤◌, ◌^◌, true, length, [], IfErr, IfOk, IfSome, OnOk};
ghost use Rattle.elf_image.specs.inner.Object.{IsObject};
ghost use Rattle.elf_image.specs.Reloc.{entries_of};
ghost use Rattle.elf_image.specs.inner.Reloc.{AreInside};
ghost use Rattle.elf_image.specs.inner.Runs.{AreRuns};
ghost use Rattle.kx_laws.specs.inner.Results.{Gives};
ghost use Rattle.purgatory_link.specs.declared.put.Put.{Put};
ghost use Rattle.purgatory_link.specs.declared.fault.LinkFault.TheVariants.{Memory};
ghost use Rattle.purgatory_link.specs.Relocs.{with_one, relocate};
ghost use Rattle.purgatory_link.specs.inner.Relocs.{HasRoom, IsPut, with_put, is_idle};
ghost use Rattle.purgatory_link.specs.inner.Taken.{room, AreTaken, IsRow};
ghost use Rattle.purgatory_link.specs.inner.Progress.{ArePut, Refuses};

use crate::fault::LinkFault;
use crate::form::R_X86_64_NONE;
use crate::put::Put;
use crate::reloc::put_of;
use crate::symbols::{start_at, symbol_value};
use crate::taken::Taken;
use elf_image::{EntryRuns, Object, RelocSection};
use std::alloc::{AllocError, Global};

/// The buffer in which an object is linked: its bytes, and which of them are a field's.
#[derive(Drop)]
struct LinkBuffer {
    bytes: Vec<u8>,
    taken: Taken,
}

impl LinkBuffer {
    // The buffer of these bytes, none of which is a field's.
    fn new(alloc: Global, bytes: Vec<u8>) -> Result<LinkBuffer, AllocError>
        ensures bytes { IfOk result (λ b. b.bytes.items ≡ bytes.items) }
        ensures taken { IfOk result (λ b. AreTaken [] b.taken) }
        ensures room { IfOk result (λ b. length bytes.items ≤ room b.taken) }
    {
        let taken = Taken::new(alloc, bytes.len())?;
        Ok(LinkBuffer { bytes, taken })
    }

    // Puts a number into its field, if there is one, which is taken then.
    fn put(&mut self, put: Option<Put>)
        requires put { IfSome put (λ p. IsPut (length self.old.bytes.items) p) }
        requires room { length self.old.bytes.items ≤ room self.old.taken }
        requires small { length self.old.bytes.items ≤ 16777216 }
        ensures bytes { self.new.bytes.items ≡ with_put put self.old.bytes.items }
        ensures taken { (puts : List Put) → AreTaken puts self.old.taken
            → AreTaken (with_one puts put) self.new.taken }
        ensures room { room self.new.taken ≡ room self.old.taken }
        ensures length { length self.new.bytes.items ≡ length self.old.bytes.items }
    {
        if let Some(put) = put {
            self.taken.add(&put);
            put.write(&mut self.bytes);
        }
    }
}

// Whether a relocation stands at this byte of the file that puts nothing, whatever section it is of: its type is
// R_X86_64_NONE, and its symbol has a value.
fn is_idle(base: u64, object: &Object, file: &[u8], starts: &[Option<u64>], at: usize) -> bool
    ensures { result ≡ true → is_idle base object.now file.now starts.now at ≡ true }
{
    if file.len() < 24 || at > file.len() - 24 {
        return false;
    }
    let reloc = RelocSection {
        section: 0,
        target: 0,
        offset: at,
        count: 1,
    }
    .reloc(file, 0);
    reloc.kind == R_X86_64_NONE && symbol_value(base, starts, &object.symbols, reloc.symbol).is_ok()
}

// Runs of relocations that put nothing, from each byte of the file on.
fn note_runs(
    alloc: Global,
    base: u64,
    object: &Object,
    file: &[u8],
    starts: &[Option<u64>],
) -> Result<EntryRuns, AllocError>
    ensures { IfOk result (AreRuns (is_idle base object.now file.now starts.now)) }
{
    let mut runs = EntryRuns::of_file(alloc, file.len())?;
    for noted in 0..file.len() {
        runs.push(is_idle(base, object, file, starts, file.len() - 1 - noted))?;
    }
    Ok(runs)
}

// How many relocations these sections have, counted for each of them.
fn count_of(sections: &[RelocSection]) -> usize {
    let mut count: usize = 0;
    for section in sections {
        count = count.saturating_add(section.count);
    }
    count
}

// The same runs where the file has no room for so many relocations, so that some sections have the same ones. Else each
// is looked at but once anyway, and nothing is noted.
fn runs_of(
    alloc: Global,
    base: u64,
    object: &Object,
    file: &[u8],
    starts: &[Option<u64>],
) -> Result<EntryRuns, AllocError>
    ensures { IfOk result (AreRuns (is_idle base object.now file.now starts.now)) }
{
    if count_of(&object.reloc_sections) > file.len() / 24 {
        note_runs(alloc, base, object, file, starts)
    } else {
        Ok(EntryRuns::none(alloc))
    }
}

// Puts what the relocations of a section put. Nothing does in a section whose target is not loaded, and those that are
// noted to put nothing are passed over: what is left takes bytes that no other relocation may have, or is refused.
fn relocate_section(
    base: u64,
    object: &Object,
    file: &[u8],
    starts: &[Option<u64>],
    runs: &EntryRuns,
    section: &RelocSection,
    buffer: &mut LinkBuffer,
) -> Result<(), LinkFault>
    requires base { base < 2 ^ 46 }
    requires inside { AreInside file.now section.now }
    requires runs { AreRuns (is_idle base object.now file.now starts.now) runs.now }
    requires room { HasRoom object.now starts.now (length buffer.old.bytes.items) }
    requires small { length buffer.old.bytes.items ≤ 16777216 }
    requires taken { length buffer.old.bytes.items ≤ room buffer.old.taken }
    requires row { IsRow buffer.old.taken }
    ensures put { OnOk result (ArePut base object.now starts.now buffer.old buffer.new
        (entries_of file.now section.now)) }
    ensures refused { IfErr result (Refuses base object.now starts.now buffer.old
        (entries_of file.now section.now)) }
    ensures room { room buffer.new.taken ≡ room buffer.old.taken }
    ensures length { length buffer.new.bytes.items ≡ length buffer.old.bytes.items }
{
    if start_at(starts, section.target).is_none() {
        return Ok(());
    }
    let mut entry = runs.run(section.offset);
    while entry < section.count {
        let reloc = section.reloc(file, entry);
        match put_of(base, object, starts, &buffer.taken, &reloc) {
            Ok(put) => buffer.put(put),
            Err(fault) => return Err(fault),
        }
        entry += 1 + runs.run(section.offset + 24 * (entry + 1));
    }
    Ok(())
}

/// Puts what all relocations put into the bytes.
pub(crate) fn relocate(
    alloc: Global,
    base: u64,
    object: &Object,
    file: &[u8],
    starts: &[Option<u64>],
    bytes: Vec<u8>,
) -> Result<Vec<u8>, LinkFault>
    requires object { IsObject object.now file.now }
    requires base { base < 2 ^ 46 }
    requires room { HasRoom object.now starts.now (length bytes.items) }
    requires small { length bytes.items ≤ 16777216 }
    ensures { Gives Memory (λ v. v.items) result
        (relocate base object.now file.now starts.now bytes.items) }
{
    let runs = runs_of(alloc, base, object, file, starts)?;
    let mut buffer = LinkBuffer::new(alloc, bytes)?;
    for section in &object.reloc_sections {
        match relocate_section(base, object, file, starts, &runs, section, &mut buffer) {
            Ok(()) => (),
            Err(fault) => return Err(fault),
        }
    }
    Ok(buffer.bytes)
}
