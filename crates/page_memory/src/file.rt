//! The memory file.

ghost use Rattle.std.specs.Prelude.{◌≡◌, ◌≤◌, ◌<◌, ◌+◌, ◌*◌, ◌^◌, length, ◌++◌, ◌↔◌, drop, IfOk, IfErr, IfSome, IsSome, OnOk, nat_le, take, if◌then◌else◌};
ghost use Rattle.page_memory.specs.declared.fault.MemFault.TheVariants.{PastLimit};
ghost use Rattle.std.specs.BTreeMap.{IsOrdered};
ghost use Rattle.std.specs.List.{AllByRecursion};
ghost use Rattle.std.specs.Ordering.{nat_cmp};
ghost use Rattle.byteorder.specs.Endian.{little_bytes};
ghost use Rattle.kx_fields.specs.Fields.{field};
ghost use Rattle.kx_laws.specs.inner.Results.{Gives};
ghost use Rattle.page_memory.specs.Contents.{Contents, IsMemory, at};
ghost use Rattle.page_memory.specs.File.{file_page_limit, magic, text_of, page_text, file, pages_from, read_pages, entry_at, is_all_zeros, stored_pages};
ghost use Rattle.page_memory.specs.inner.File.{HasNoFile, IsFileOf, IsReadAgain};
ghost use Rattle.page_memory.specs.Memory.{Agree};
ghost use Rattle.page_memory.specs.inner.Frames.{pages_in, AreStored, IsTable, stored_in, frame_entries};
ghost use Rattle.page_memory.specs.inner.InPlace.{AreInSlots};

use crate::buffer::frame;
use crate::fault::{HeavyFault, MemFault};
use crate::layout::{FILE_PAGE_LIMIT, FIRST_FRAME, FRAME_SIZE, HEAD, SLOT};
use crate::table::Table;
use kx_fields::Block;
use kx_pages::Page;
use std::alloc::{AllocError, Global};
use std::collections::BTreeMap;

// How many bytes of a page tell most pages apart from one of zeros: a line of the processor's cache.
const FIRST: usize = 64;

// Whether all bytes are zero: all are looked at, which is faster than to stop at the first that is not.
fn has_no_bit(bytes: &[u8]) -> bool
    ensures { result ≡ is_all_zeros bytes.now }
{
    let mut bits = 0;
    for b in bytes {
        bits |= *b;
    }
    bits == 0
}

/// Whether all bytes are zero. Those behind the first ones are looked at only where the first ones are all zero.
pub(crate) fn is_zero(bytes: &[u8]) -> bool
    ensures { result ≡ is_all_zeros bytes.now }
{
    let (first, rest) = bytes.split_at(bytes.len().min(FIRST));
    has_no_bit(first) && has_no_bit(rest)
}

// The number that the bytes begin with.
fn number_at(bytes: &[u8]) -> u64
    requires { 8 ≤ length bytes.now }
    ensures { result ≡ field 0 8 bytes.now }
{
    match Block::<8>::cut(bytes, 0) {
        Some(number) => number.get_u64(0),
        None => unreachable!(),
    }
}

// How many pages the head of a file counts; none where the file is shorter than its head.
fn count_at(bytes: &[u8]) -> Option<u64>
    ensures found { IsSome result ↔ (16 ≤ length bytes.now) }
    ensures value { IfSome result (λ count. count ≡ field 8 8 bytes.now) }
{
    let head = Block::<16>::cut(bytes, 0)?;
    Some(head.get_u64(8))
}

/// The head of a file with so many pages.
#[tactic(auto, unfolding(kx_fields::specs::Fields::with_field, kx_fields::specs::Fields::zeros))]
pub(crate) fn head_of(count: u64) -> Block<16>
    ensures { result ≡ magic ++ little_bytes 8 count }
{
    let mut head = Block::zeros();
    head.put_bytes(0, b"KXMEM001");
    head.put_u64(8, count);
    head
}

// The head of a page.
#[tactic(auto, unfolding(kx_fields::specs::Fields::with_field, kx_fields::specs::Fields::zeros))]
fn page_head(p: Page) -> Block<8>
    ensures { result ≡ little_bytes 8 p }
{
    let mut head = Block::zeros();
    head.put_u64(0, p.number());
    head
}

fn page_of_number(number: u64, place: u64) -> Result<Page, MemFault>
    ensures { result ≡ (if nat_le (2 ^ 34) number then Err (PastLimit place) else Ok number) }
{
    match Page::new(number) {
        Some(page) => Ok(page),
        None => Err(MemFault::PastLimit { at: place }),
    }
}

// The number and the bytes of the next page, and what follows it.
#[tactic(auto, unfolding(crate::specs::File::entry_at))]
fn next_page(
    total: u64,
    place: u64,
    low: u64,
    bytes: &[u8],
) -> Result<(Page, &[u8], &[u8]), MemFault>
    ensures exact { Gives MemFault.Memory (λ x. (x.0, x.1.now, x.2.now)) result
        (entry_at total place low bytes.now) }
    ensures long { IfOk result (λ x. 4104 ≤ length bytes.now) }
    ensures frame { IfOk result (λ x. x.1.now ≡ take 4096 (drop 8 bytes.now)) }
    ensures rest { IfOk result (λ x. x.2.now ≡ drop 4096 (drop 8 bytes.now)) }
    ensures page { IfOk result (λ x. x.0 < 2 ^ 34) }
    ensures rises { IfOk result (λ x. low ≤ x.0) }
{
    if bytes.len() < SLOT {
        return Err(MemFault::Truncated { at: total });
    }
    let number = number_at(bytes);
    let page = page_of_number(number, place)?;
    if number < low {
        return Err(MemFault::NotRising { at: place });
    }
    let (_, rest) = bytes.split_at(8);
    let (frame, after) = rest.split_at(FRAME_SIZE);
    if is_zero(frame) {
        return Err(MemFault::ZeroPage { at: place });
    }
    Ok((page, frame, after))
}

// The table of so many pages that stand after a file's head, and that nothing follows. Each frame stays where it lies.
fn table_of(alloc: Global, count: u64, bytes: &[u8]) -> Result<Table, MemFault>
    requires few { count ≤ file_page_limit }
    requires headed { 16 ≤ length bytes.now }
    ensures exact { Gives MemFault.Memory (λ t. pages_in bytes.now t.places) result
        (pages_from count bytes.now) }
    ensures table { IfOk result (λ t. IsTable bytes.now t.places) }
{
    let total = bytes.len() as u64;
    let mut places = BTreeMap::new(alloc);
    let mut low = 0;
    let (_, mut rest) = bytes.split_at(HEAD);
    for i in 0..count {
        let (page, _, after) = match next_page(total, HEAD as u64 + SLOT as u64 * i, low, rest) {
            Ok(next) => next,
            Err(e) => return Err(e),
        };
        places.insert(page, (FIRST_FRAME as u64 + SLOT as u64 * i) as usize)?;
        low = page.number() + 1;
        rest = after;
    }
    if !rest.is_empty() {
        return Err(MemFault::Trailing {
            at: HEAD as u64 + SLOT as u64 * count,
        });
    }
    Ok(Table::new(alloc, places))
}

/// The table of the pages that a memory file spells, over the bytes of the file.
#[tactic(auto, unfolding(crate::specs::File::read_pages))]
pub(crate) fn file_table(alloc: Global, bytes: &[u8]) -> Result<Table, MemFault>
    ensures exact { Gives MemFault.Memory (λ t. pages_in bytes.now t.places) result
        (read_pages bytes.now) }
    ensures table { IfOk result (λ t. IsTable bytes.now t.places) }
{
    if !bytes.starts_with(b"KXMEM001") {
        return Err(MemFault::BadMagic);
    }
    let count = match count_at(bytes) {
        Some(count) => count,
        None => {
            return Err(MemFault::Truncated {
                at: bytes.len() as u64,
            });
        }
    };
    if count > FILE_PAGE_LIMIT {
        return Err(MemFault::TooMany { count });
    }
    table_of(alloc, count, bytes)
}

fn put_page(out: &mut Vec<u8>, p: Page, frame: &[u8]) -> Result<(), AllocError>
    ensures { OnOk result (out.new.items ≡ out.old.items ++ page_text (p, frame.now)) }
{
    out.extend_from_slice(page_head(p).bytes())?;
    out.extend_from_slice(frame)?;
    Ok(())
}

// The pages that are not all zeros, each with the place of its frame.
fn stored_frames(
    alloc: Global,
    frames: &[u8],
    table: &Table,
) -> Result<Vec<(Page, usize)>, AllocError>
    requires { IsTable frames.now table.now.places }
    ensures stored { IfOk result (λ v. AreStored frames.now table.now.places v.items) }
    ensures slots { IfOk result (λ v. AreInSlots frames.now v.items) }
    ensures few { IfOk result (λ v. length v.items ≤ length table.now.places.entries) }
    ensures ordered { IsOrdered nat_cmp table.now.places }
{
    let entries = table.places().iter();
    let mut stored = Vec::new(alloc);
    stored.reserve_exact(table.len())?;
    for (p, place) in entries {
        if !is_zero(frame(frames, *place)) {
            stored.push((*p, *place))?;
        }
    }
    Ok(stored)
}

// The file of these pages, its room made at once.
fn text_of_pages(
    alloc: Global,
    frames: &[u8],
    pages: &[(Page, usize)],
) -> Result<Vec<u8>, AllocError>
    requires inside { AllByRecursion (λ e. e.1 + 4096 ≤ length frames.now) pages.now }
    requires few { length pages.now ≤ file_page_limit }
    ensures { IfOk result (λ v. v.items ≡ text_of (frame_entries frames.now pages.now)) }
{
    let mut out = Vec::new(alloc);
    out.reserve_exact(HEAD + SLOT * pages.len())?;
    out.extend_from_slice(head_of(pages.len() as u64).bytes())?;
    for (p, place) in pages {
        put_page(&mut out, *p, frame(frames, *place))?;
    }
    Ok(out)
}

/// The pages that the file of a memory has, each with the place of its frame.
pub(crate) fn file_pages(
    alloc: Global,
    frames: &[u8],
    table: &Table,
) -> Result<Vec<(Page, usize)>, HeavyFault>
    requires { IsTable frames.now table.now.places }
    ensures stored { IfOk result (λ v. AreStored frames.now table.now.places v.items) }
    ensures limit { IfOk result (λ v. length v.items ≤ file_page_limit) }
    ensures slots { IfOk result (λ v. AreInSlots frames.now v.items) }
    ensures few { IfOk result (λ v. length v.items ≤ length table.now.places.entries) }
    ensures ordered { IsOrdered nat_cmp table.now.places }
    ensures heavy { IfErr result (λ e. HasNoFile (stored_in frames.now table.now.places) e) }
{
    let pages = stored_frames(alloc, frames, table)?;
    if pages.len() as u64 > FILE_PAGE_LIMIT {
        return Err(HeavyFault::TooMany {
            count: pages.len() as u64,
        });
    }
    Ok(pages)
}

/// The file of the pages that are not all zeros.
pub(crate) fn file_of(alloc: Global, frames: &[u8], table: &Table) -> Result<Vec<u8>, HeavyFault>
    requires { IsTable frames.now table.now.places }
    ensures file { IfOk result (λ v. IsFileOf (stored_in frames.now table.now.places) v.items) }
    ensures ordered { IsOrdered nat_cmp table.now.places }
    ensures heavy { IfErr result (λ e. HasNoFile (stored_in frames.now table.now.places) e) }
{
    let pages = file_pages(alloc, frames, table)?;
    Ok(text_of_pages(alloc, frames, &pages)?)
}

/// What `write` gives is read back: the file of a memory within the limit reads as a memory that agrees with it at
/// every page.
pub fn reads_back()
    ensures { (m : Contents) → IsMemory m → length (stored_pages m) ≤ file_page_limit →
        IsReadAgain m }
{}

/// Each memory has one file: memories that agree at every page store the same pages, and have the same file.
pub fn agreeing_have_one_file()
    ensures stored { (m n : Contents) → Agree (at m) (at n) → stored_pages m ≡ stored_pages n }
    ensures file { (m n : Contents) → Agree (at m) (at n) → file m ≡ file n }
{}
