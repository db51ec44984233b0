//! The rules that segments have to meet.

ghost use Rattle.std.specs.Prelude.{◌≡◌, ℕ, ◌+◌, ◌/◌, ◌^◌, ◌<◌, ◌≤◌, ◌||◌, ◌&&◌, nat_le, nat_lt, None, Some, false, length, IfOk, OnOk};
ghost use Rattle.std.specs.List.{list_any, list_all, range_with_len, AllByRecursion};
ghost use Rattle.std.specs.List as lists;
ghost use Rattle.kx_pages.specs.Spans as spans;
ghost use Rattle.segments.specs.Values.{page_count, pages, is_destination};
ghost use Rattle.kx_laws.specs.Results.{unless};
ghost use Rattle.segments.specs.Rules.{bad_count, bad_address, misplaced, is_bad_address, is_too_full, leaves, overlap, overlap_each_other, too_full, half_of_memory, outside_reserved, is_not_ram, not_ram, too_large, shape_refusal, bare_refusal, refusal};

use crate::fault::{Kind, SegFault};
use crate::segment::Segment;
use kx_pages::{PageSet, SEGMENT_LIMIT, SEGMENT_PAGE_LIMIT, Span};
use std::alloc::{AllocError, Global};

fn test_count(list: &[Segment]) -> Result<(), SegFault>
    ensures { result ≡ unless (bad_count list.now) }
{
    if list.is_empty() {
        Err(SegFault::NoSegments)
    } else if list.len() > SEGMENT_LIMIT {
        Err(SegFault::TooMany)
    } else {
        Ok(())
    }
}

fn first_with_bad_address(list: &[Segment]) -> Option<usize>
    ensures { result ≡ lists.position is_bad_address list.now }
{
    list.iter().position(|s| s.has_bad_address())
}

fn test_addresses(list: &[Segment]) -> Result<(), SegFault>
    ensures { result ≡ unless (bad_address list.now) }
{
    match first_with_bad_address(list) {
        Some(i) => Err(SegFault::BadAddress { i }),
        None => Ok(()),
    }
}

// The first of some segments that this one overlaps.
fn first_overlapped(earlier: &[Segment], s: &Segment) -> Option<usize>
    ensures { result ≡ lists.position (overlap_each_other s.now) earlier.now }
{
    earlier.iter().position(|r| s.overlaps(r))
}

fn test_overlap(list: &[Segment]) -> Result<(), SegFault>
    ensures { result ≡ unless (overlap list.now) }
{
    for (i, s) in list.iter().enumerate() {
        if let Some(j) = first_overlapped(&list[..i], s) {
            return Err(SegFault::Overlap { i, j });
        }
    }
    Ok(())
}

fn first_too_full(list: &[Segment]) -> Option<usize>
    ensures { result ≡ lists.position is_too_full list.now }
{
    list.iter().position(|s| s.is_too_full())
}

fn test_bytes(list: &[Segment]) -> Result<(), SegFault>
    ensures { result ≡ unless (too_full list.now) }
{
    match first_too_full(list) {
        Some(i) => Err(SegFault::TooFull { i }),
        None => Ok(()),
    }
}

/// How many pages the segments have together.
pub(crate) fn total(list: &[Segment]) -> u64
    requires { length list.now ≤ 16 }
    ensures { result ≡ length (pages list.now) }
{
    let mut total = 0;
    for s in list {
        total += s.page_count();
    }
    total
}

// A segment has more pages than this.
fn one_has_more(list: &[Segment], most: u64) -> bool
    ensures { result ≡ list_any (λ s. nat_lt most (page_count s)) list.now }
{
    list.iter().any(|s| s.page_count() > most)
}

fn test_half_of_memory(list: &[Segment], ram: &PageSet) -> Result<(), SegFault>
    requires { length list.now ≤ 16 }
    ensures { result ≡ unless (half_of_memory ram.now list.now) }
{
    let half = ram.total() / 2;
    if one_has_more(list, half) || total(list) > half {
        Err(SegFault::HalfOfMemory)
    } else {
        Ok(())
    }
}

fn first_that_leaves(list: &[Segment], area: Span) -> Option<usize>
    ensures { result ≡ lists.position (leaves area) list.now }
{
    list.iter().position(|s| s.leaves(area))
}

fn test_reserved(list: &[Segment], area: Span) -> Result<(), SegFault>
    ensures { result ≡ unless (outside_reserved (Kind.Crash area) list.now) }
{
    match first_that_leaves(list, area) {
        Some(i) => Err(SegFault::OutsideReserved { i }),
        None => Ok(()),
    }
}

// Each page of the run of pages is one of the span's.
fn has_all(span: Span, first: u64, count: u64) -> bool
    requires { first + count < 2 ^ 64 }
    ensures { result ≡ (nat_le span.first first && nat_le (first + count) (spans.end span)) }
{
    span.first() <= first && first + count <= span.first() + span.count()
}

// Each page of a run of at least one page is in the set. The set's spans are maximal, so one of them has all of it.
fn has_run(ram: &PageSet, first: u64, count: u64) -> bool
    requires some { 0 < count }
    requires fits { first + count < 2 ^ 64 }
    ensures { result ≡ list_all (spans.in_spans ram.now) (range_with_len first count) }
{
    for i in 0..ram.spans() {
        if has_all(ram.span(i), first, count) {
            return true;
        }
    }
    false
}

fn is_not_ram(ram: &PageSet, s: &Segment) -> bool
    ensures { result ≡ is_not_ram ram.now s.now }
{
    let count = s.page_count();
    count > 0 && !has_run(ram, s.first_page(), count)
}

fn first_not_ram(list: &[Segment], ram: &PageSet) -> Option<usize>
    ensures { result ≡ lists.position (is_not_ram ram.now) list.now }
{
    list.iter().position(|s| is_not_ram(ram, s))
}

fn test_ram(list: &[Segment], ram: &PageSet) -> Result<(), SegFault>
    ensures { result ≡ unless (not_ram ram.now Kind.Normal list.now) }
{
    match first_not_ram(list, ram) {
        Some(i) => Err(SegFault::NotRam { i }),
        None => Ok(()),
    }
}

fn test_place(list: &[Segment], ram: &PageSet, kind: Kind) -> Result<(), SegFault>
    ensures { result ≡ unless (misplaced ram.now kind list.now) }
{
    match kind {
        Kind::Normal => test_ram(list, ram),
        Kind::Crash { area } => test_reserved(list, area),
    }
}

fn test_size(list: &[Segment]) -> Result<(), SegFault>
    requires { length list.now ≤ 16 }
    ensures { result ≡ unless (too_large list.now) }
{
    let pages = total(list);
    if pages > SEGMENT_PAGE_LIMIT {
        Err(SegFault::TooLarge { pages })
    } else {
        Ok(())
    }
}

fn test_shape(list: &[Segment]) -> Result<(), SegFault>
    ensures value { result ≡ unless (shape_refusal list.now) }
    ensures few { OnOk result (length list.now ≤ 16) }
{
    test_count(list)?;
    test_addresses(list)?;
    test_overlap(list)?;
    test_bytes(list)
}

/// The rules where nothing is known of memory.
pub(crate) fn test_bare(list: &[Segment]) -> Result<(), SegFault>
    ensures { result ≡ unless (bare_refusal list.now) }
{
    test_shape(list)?;
    test_size(list)
}

/// All rules.
pub(crate) fn test_all(list: &[Segment], ram: &PageSet, kind: Kind) -> Result<(), SegFault>
    ensures { result ≡ unless (refusal ram.now kind list.now) }
{
    test_shape(list)?;
    test_half_of_memory(list, ram)?;
    test_place(list, ram, kind)?;
    test_size(list)
}

/// The pages of the segments.
pub(crate) fn page_set(alloc: Global, list: &[Segment]) -> Result<PageSet, AllocError>
    requires { AllByRecursion (λ s. is_bad_address s ≡ false) list.now }
    ensures { IfOk result (λ set. (q : ℕ) → spans.in_spans set q ≡ is_destination list.now q) }
{
    let mut set = PageSet::new(alloc);
    for s in list {
        set.add(s.span())?;
    }
    Ok(set)
}
