//! Places of the parts of a plan.

ghost use Rattle.std.specs.Prelude.{◌≡◌, ◌+◌, ◌*◌, ◌<◌, ◌≤◌, ◌^◌, ℕ, max, None, IfOk, IfSome, OnOk};
ghost use Rattle.kx_laws.specs.inner.Results.{Gives};
ghost use Rattle.kx_pages.specs.Spans.{in_span, in_spans};
ghost use Rattle.kexec_plan.specs.Parts.{part_size, segment_at, start_at};
ghost use Rattle.kexec_plan.specs.Places.{is_met, taken_by, place, place_some, taking};
ghost use Rattle.kexec_plan.specs.inner.Places.{IsPlacedBy, IsPlacedIf};

use hole_search::{End, find};
use kx_pages::{ADDRESS_LIMIT, PAGE_LIMIT, PAGE_SIZE, PageSet, Span, Start};
use plan_faults::{Part, PlanFault};
use segments::Segment;
use std::alloc::{AllocError, Global};

/// Where a part lies: whole pages.
#[derive(Clone, Copy)]
pub(crate) struct Site {
    /// The address of its first byte.
    pub(crate) at: u64,
    /// How many bytes of memory it takes.
    pub(crate) size: u64,
}

/// The segment of a part at its place.
pub(crate) fn segment_at(site: Site, bytes: Vec<u8>) -> Segment
    ensures { result ≡ segment_at site bytes.items }
{
    Segment {
        bytes,
        mem: site.at,
        memsz: site.size,
    }
}

/// A start at this address, all registers 0.
pub(crate) fn start_at(entry: u64) -> Start
    ensures { result ≡ start_at entry }
{
    Start {
        entry,
        rax: 0,
        rbx: 0,
        rsi: 0,
    }
}

/// The rule of a part's place: a row of the table of places.
#[derive(Clone, Copy)]
pub(crate) struct PlaceRule {
    /// The part.
    pub(crate) part: Part,
    /// How many bytes it has.
    pub(crate) length: u64,
    /// Whether the lowest or the highest place is taken.
    pub(crate) end: End,
    /// What its address is to be a multiple of.
    pub(crate) align: u64,
    /// The least address.
    pub(crate) min: u64,
    /// The greatest address of its last byte.
    pub(crate) most: u64,
}

/// So many bytes in whole pages, at least one.
pub(crate) fn part_size(length: u64) -> u64
    requires { length ≤ 2 ^ 46 }
    ensures { result ≡ part_size length }
{
    let pages = (length + (PAGE_SIZE - 1)) / PAGE_SIZE;
    PAGE_SIZE.max(PAGE_SIZE * pages)
}

// The pages that a segment meets, below the limit.
fn met_pages(segment: &Segment) -> Span
    ensures { (q : ℕ) → in_span result q ≡ is_met q segment.now }
{
    let stop = u128::from(segment.mem) + u128::from(segment.memsz);
    let first = (segment.mem / PAGE_SIZE).min(PAGE_LIMIT);
    let end = ((stop + 4095) / 4096).min(u128::from(PAGE_LIMIT)) as u64;
    if segment.memsz == 0 {
        return Span::new(0, 0).unwrap();
    }
    Span::new(first, end - first).unwrap()
}

/// The pages that are taken by segments.
#[tactic(auto, unfolding(crate::specs::Places::taken_by))]
pub(crate) fn taken_by(alloc: Global, list: &[Segment]) -> Result<PageSet, AllocError>
    ensures { IfOk result (λ s. in_spans s ≡ taken_by list.now) }
{
    let mut taken = PageSet::new(alloc);
    for segment in list {
        taken.add(met_pages(segment))?;
    }
    Ok(taken)
}

// The place of a part by its rule, in RAM that is not taken.
#[tactic(auto, unfolding(crate::specs::Places::place), using(crate::proofs::Holes::hole_is))]
fn find_place(ram: &PageSet, taken: &PageSet, rule: PlaceRule) -> Result<Site, PlanFault>
    requires some_align { 0 < rule.align }
    requires align { rule.align ≤ 2 ^ 45 }
    ensures exact { result ≡ place (in_spans ram.now) (in_spans taken.now) rule }
    ensures place { IfOk result (IsPlacedBy rule) }
{
    if rule.length > ADDRESS_LIMIT - PAGE_SIZE {
        return Err(PlanFault::NoHole { part: rule.part });
    }
    let size = part_size(rule.length);
    match find(ram, taken, size, rule.align, rule.min, rule.most, rule.end) {
        Some(at) => Ok(Site { at, size }),
        None => Err(PlanFault::NoHole { part: rule.part }),
    }
}

// The pages of a place are taken.
#[tactic(auto, unfolding(crate::specs::Places::taking))]
fn take(taken: &mut PageSet, site: Site) -> Result<(), AllocError>
    requires { site.at + site.size ≤ 2 ^ 46 }
    ensures { OnOk result ((q : ℕ) → in_spans taken.new q ≡ taking (in_spans taken.old) site q) }
{
    let span = Span::new(site.at / PAGE_SIZE, site.size / PAGE_SIZE).unwrap();
    taken.add(span)
}

/// The place of a part by its rule, in RAM that is not taken. It is taken then.
pub(crate) fn place(ram: &PageSet, taken: &mut PageSet, rule: PlaceRule) -> Result<Site, PlanFault>
    requires some_align { 0 < rule.align }
    requires align { rule.align ≤ 2 ^ 45 }
    ensures exact { Gives PlanFault.Memory (λ s. s) result
        (place (in_spans ram.now) (in_spans taken.old) rule) }
    ensures place { IfOk result (IsPlacedBy rule) }
    ensures taken { IfOk result (λ s. in_spans taken.new ≡ taking (in_spans taken.old) s) }
{
    let site = find_place(ram, taken, rule)?;
    take(taken, site)?;
    Ok(site)
}

/// The same for a part that may be left out.
#[tactic(auto, unfolding(crate::specs::Places::place_some))]
pub(crate) fn place_some(
    ram: &PageSet,
    taken: &PageSet,
    rule: Option<PlaceRule>,
) -> Result<Option<Site>, PlanFault>
    requires some_align { IfSome rule (λ r. 0 < r.align) }
    requires align { IfSome rule (λ r. r.align ≤ 2 ^ 45) }
    ensures exact { Gives PlanFault.Memory (λ s. s) result
        (place_some (in_spans ram.now) (in_spans taken.now) rule) }
    ensures place { IfOk result (IsPlacedIf rule) }
{
    match rule {
        Some(rule) => Ok(Some(find_place(ram, taken, rule)?)),
        None => Ok(None),
    }
}
