//! The layout of the linked bytes.

ghost use Rattle.std.specs.Prelude.{◌≡◌, ℕ, ◌+◌, ◌-◌, ◌^◌, ◌<◌, ◌≤◌, ◌++◌, length, min, IfOk, OnOk};
ghost use Rattle.elf_image.specs.inner.Section.{IsInside};
ghost use Rattle.std.specs.List.{All};
ghost use Rattle.purgatory_link.specs.Layout.{is_loaded, padding, start_behind, end_behind, starts, end, laid_behind, lay, fill_up, in_pages, has_bad_align, is_loaded_at, is_rel, linked_size};
ghost use Rattle.purgatory_link.specs.declared.fault.LinkFault.TheVariants as faults;
ghost use Rattle.kx_laws.specs.Results.{unless_at};
ghost use Rattle.std.specs.Prelude.{position};

use crate::fault::LinkFault;
use elf_image::{SHT_NOBITS, SHT_NULL, SHT_REL, Section};
use kx_pages::{PAGE_SIZE, whole_pages};
use std::alloc::{AllocError, Global};

/// The most bytes that may be linked: 16 MiB.
const LINKED_LIMIT: u64 = 16_777_216;

/// Whether the section is loaded.
fn is_loaded(section: &Section) -> bool
    ensures { result ≡ is_loaded section.now }
{
    section.alloc && section.kind != SHT_NULL
}

// How many bytes stand between the place and the next multiple of the section's alignment.
#[tactic(auto, unfolding(crate::specs::Layout::padding))]
fn padding(section: &Section, end: u64) -> u64
    ensures { result ≡ padding section.now end }
{
    let unit = section.align.max(1);
    (unit - end % unit) % unit
}

// Where a section ends behind the first bytes, at most the greatest number.
fn end_behind(end: u64, section: &Section) -> u64
    ensures { (n : ℕ) → end ≡ min n (2 ^ 64 - 1)
        → result ≡ min (end_behind n section.now) (2 ^ 64 - 1) }
{
    if !is_loaded(section) {
        return end;
    }
    end.saturating_add(padding(section, end))
        .saturating_add(section.size)
}

// Where the last section ends, at most the greatest number.
fn end_of(sections: &[Section]) -> u64
    ensures { result ≡ min (end 0 sections.now) (2 ^ 64 - 1) }
{
    let mut end = 0;
    for section in sections {
        end = end_behind(end, section);
    }
    end
}

// Whether the section is loaded and its alignment is none.
fn has_bad_align(section: &Section) -> bool
    ensures { result ≡ has_bad_align section.now }
{
    let align = section.align;
    is_loaded(section) && align != 0 && PAGE_SIZE % align != 0
}

// Whether the section of this index is there and loaded.
fn is_loaded_at(sections: &[Section], index: usize) -> bool
    ensures { result ≡ is_loaded_at sections.now index }
{
    match sections.get(index) {
        Some(section) => is_loaded(section),
        None => false,
    }
}

// Whether the section has relocations without addends of a loaded section.
fn is_rel(sections: &[Section], section: &Section) -> bool
    ensures { result ≡ is_rel sections.now section.now }
{
    section.kind == SHT_REL && is_loaded_at(sections, section.target as usize)
}

// The first section of relocations without addends of a loaded section.
fn first_rel(sections: &[Section]) -> Option<usize>
    ensures { result ≡ position (is_rel sections.now) sections.now }
{
    sections.iter().position(|s| is_rel(sections, s))
}

/// Refuses the first section of relocations without addends of a loaded section.
pub(crate) fn refuse_rel(sections: &[Section]) -> Result<(), LinkFault>
    ensures { result ≡ unless_at faults.RelSection (position (is_rel sections.now) sections.now) }
{
    match first_rel(sections) {
        Some(section) => Err(LinkFault::RelSection { section }),
        None => Ok(()),
    }
}

// The first loaded section whose alignment is none.
fn first_bad_align(sections: &[Section]) -> Option<usize>
    ensures { result ≡ position has_bad_align sections.now }
{
    sections.iter().position(|s| has_bad_align(s))
}

// Refuses it.
fn refuse_align(sections: &[Section]) -> Result<(), LinkFault>
    ensures { result ≡ unless_at faults.BadAlign (position has_bad_align sections.now) }
{
    match first_bad_align(sections) {
        Some(section) => Err(LinkFault::BadAlign { section }),
        None => Ok(()),
    }
}

/// How many bytes are linked: whole pages, at least one.
#[tactic(auto, unfolding(crate::specs::Layout::linked_size))]
pub(crate) fn linked_size(sections: &[Section]) -> Result<u64, LinkFault>
    ensures exact { result ≡ linked_size sections.now }
    ensures small { IfOk result (λ _. end 0 sections.now ≤ 16777216) }
    ensures pages { IfOk result (λ n. n ≡ in_pages (end 0 sections.now)) }
{
    match refuse_align(sections) {
        Ok(()) => (),
        Err(fault) => return Err(fault),
    }
    let end = end_of(sections);
    if end > LINKED_LIMIT {
        return Err(LinkFault::TooLarge { bytes: end });
    }
    Ok(whole_pages(end).max(PAGE_SIZE))
}

// Where a section starts behind the first bytes, if it is loaded, and where it ends.
fn placed_behind(end: u64, section: &Section) -> (Option<u64>, u64)
    requires { end_behind end section.now ≤ 16777216 }
    ensures start { result.0 ≡ start_behind end section.now }
    ensures end { result.1 ≡ end_behind end section.now }
{
    if !is_loaded(section) {
        return (None, end);
    }
    let start = end + padding(section, end);
    (Some(start), start + section.size)
}

/// Where each section starts.
pub(crate) fn starts(alloc: Global, sections: &[Section]) -> Result<Vec<Option<u64>>, AllocError>
    requires { end 0 sections.now ≤ 16777216 }
    ensures { IfOk result (λ v. v.items ≡ starts 0 sections.now) }
{
    let mut end = 0;
    let mut starts = Vec::new(alloc);
    starts.reserve_exact(sections.len())?;
    for section in sections {
        let (start, behind) = placed_behind(end, section);
        starts.push(start)?;
        end = behind;
    }
    Ok(starts)
}

// Puts a section behind the bytes.
fn put_section(out: &mut Vec<u8>, section: &Section, file: &[u8]) -> Result<(), AllocError>
    requires small { end_behind (length out.old.items) section.now ≤ 16777216 }
    requires inside { IsInside file.now section.now }
    ensures bytes { OnOk result (out.new.items
        ≡ out.old.items ++ laid_behind file.now (length out.old.items) section.now) }
    ensures end { OnOk result (length out.new.items
        ≡ end_behind (length out.old.items) section.now) }
{
    if !is_loaded(section) {
        return Ok(());
    }
    let start = out.len() + padding(section, out.len() as u64) as usize;
    out.resize(start, 0)?;
    if section.kind == SHT_NOBITS {
        out.resize(start + section.size as usize, 0)?;
        return Ok(());
    }
    let (_, behind) = file.split_at(section.offset as usize);
    let (own, _) = behind.split_at(section.size as usize);
    out.extend_from_slice(own)?;
    Ok(())
}

/// The bytes of the loaded sections at their places, filled up to `size` bytes.
pub(crate) fn lay(
    alloc: Global,
    sections: &[Section],
    file: &[u8],
    size: u64,
) -> Result<Vec<u8>, AllocError>
    requires small { end 0 sections.now ≤ 16777216 }
    requires inside { All (IsInside file.now) sections.now }
    requires size { size ≡ in_pages (end 0 sections.now) }
    ensures bytes { IfOk result (λ v. v.items ≡ fill_up size (lay file.now 0 sections.now)) }
    ensures length { IfOk result (λ v. length v.items ≡ size) }
{
    let mut out = Vec::new(alloc);
    out.reserve_exact(size as usize)?;
    for section in sections {
        put_section(&mut out, section, file)?;
    }
    out.resize(size as usize, 0)?;
    Ok(out)
}
