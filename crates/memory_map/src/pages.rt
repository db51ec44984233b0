//! The pages that are RAM, and the reserved area.

ghost use Rattle.std.specs.Prelude.{◌≡◌, ℕ, ◌+◌, ◌-◌, ◌&&◌, ◌||◌, ◌<◌, ◌≤◌, ◌^◌, not, IfOk};
ghost use Rattle.std.specs.List.{list_any};
ghost use Rattle.kx_pages.specs.Spans.{in_spans};
ghost use Rattle.memory_map.specs.Rows.{is_ram_row, holds_page, meets_page};
ghost use Rattle.memory_map.specs.inner.Rows.{IsBelow, AreBelow};
ghost use Rattle.memory_map.specs.Maps.{is_whole, is_ram, pages_inside, if_some_pages, reserved_in};
ghost use Rattle.memory_map.specs.inner.Maps.{has_page};

use crate::row::Row;
use kx_pages::{PAGE_SIZE, PageSet, Span, pages_for};
use std::alloc::{AllocError, Global};

/// The pages from `first` on and before `end`, if there are any.
fn span_between(first: u64, end: u64) -> Option<Span>
    requires { end ≤ 2 ^ 34 }
    ensures { result ≡ if_some_pages (record { first = first; count = end - first }) }
{
    if first < end {
        Span::new(first, end - first)
    } else {
        None
    }
}

/// The pages that lie wholly in the row, if there are any.
fn pages_inside(row: Row) -> Option<Span>
    requires { IsBelow row }
    ensures value { result ≡ if_some_pages (pages_inside row) }
    ensures pages { (p : ℕ) → has_page result p ≡ holds_page p row }
{
    span_between(pages_for(row.start), (row.start + row.size) / PAGE_SIZE)
}

/// The whole pages inside the last of the areas, if there are any.
pub(crate) fn reserved_area(areas: &[Row]) -> Option<Span>
    requires { AreBelow areas.now }
    ensures { result ≡ reserved_in areas.now }
{
    match areas.last() {
        Some(area) => pages_inside(*area),
        None => None,
    }
}

fn push_some(spans: &mut Vec<Span>, span: Option<Span>) -> Result<(), AllocError>
    ensures { IfOk result (λ _. (p : ℕ) → in_spans spans.new.items p
        ≡ (in_spans spans.old.items p || has_page span p)) }
{
    match span {
        Some(s) => {
            spans.push(s)?;
            Ok(())
        }
        None => Ok(()),
    }
}

/// Adds the pages that lie wholly in a row of System RAM.
fn push_whole(spans: &mut Vec<Span>, row: Row) -> Result<(), AllocError>
    requires { IsBelow row }
    ensures { IfOk result (λ _. (p : ℕ) → in_spans spans.new.items p
        ≡ (in_spans spans.old.items p || (is_ram_row row && holds_page p row))) }
{
    if row.kind != 1 {
        return Ok(());
    }
    push_some(spans, pages_inside(row))?;
    Ok(())
}

/// Adds the pages that have a byte of the row.
fn push_met(spans: &mut Vec<Span>, row: Row) -> Result<(), AllocError>
    requires { IsBelow row }
    ensures { IfOk result (λ _. (p : ℕ) → in_spans spans.new.items p
        ≡ (in_spans spans.old.items p || meets_page p row)) }
{
    spans.push(Span::meeting(row.start, row.start + row.size))?;
    Ok(())
}

/// Adds the pages that meet a row of another kind than System RAM.
fn push_other(spans: &mut Vec<Span>, row: Row) -> Result<(), AllocError>
    requires { IsBelow row }
    ensures { IfOk result (λ _. (p : ℕ) → in_spans spans.new.items p
        ≡ (in_spans spans.old.items p || (not (is_ram_row row) && meets_page p row))) }
{
    if row.kind == 1 {
        return Ok(());
    }
    push_met(spans, row)?;
    Ok(())
}

/// Spans of the pages that lie wholly in one System RAM row.
fn whole_spans(alloc: Global, rows: &[Row]) -> Result<Vec<Span>, AllocError>
    requires { AreBelow rows.now }
    ensures { IfOk result (λ v. (p : ℕ) → in_spans v.items p ≡ is_whole rows.now p) }
{
    let mut spans = Vec::new(alloc);
    for row in rows {
        push_whole(&mut spans, *row)?;
    }
    Ok(spans)
}

/// Adds spans of the pages that meet a row of another kind than System RAM.
fn push_other_rows(spans: &mut Vec<Span>, rows: &[Row]) -> Result<(), AllocError>
    requires { AreBelow rows.now }
    ensures { IfOk result (λ _. (p : ℕ) → in_spans spans.new.items p
        ≡ (in_spans spans.old.items p
        || list_any (λ r. not (is_ram_row r) && meets_page p r) rows.now)) }
{
    for row in rows {
        push_other(spans, *row)?;
    }
    Ok(())
}

/// Adds spans of the pages that meet an area.
fn push_areas(spans: &mut Vec<Span>, areas: &[Row]) -> Result<(), AllocError>
    requires { AreBelow areas.now }
    ensures { IfOk result (λ _. (p : ℕ) → in_spans spans.new.items p
        ≡ (in_spans spans.old.items p || list_any (λ r. meets_page p r) areas.now)) }
{
    for area in areas {
        push_met(spans, *area)?;
    }
    Ok(())
}

/// The pages that lie wholly in one System RAM row, less those that meet a row of another kind or an area.
pub(crate) fn ram_pages(alloc: Global, rows: &[Row], areas: &[Row]) -> Result<PageSet, AllocError>
    requires rows { AreBelow rows.now }
    requires areas { AreBelow areas.now }
    ensures { IfOk result (λ s. (p : ℕ) → in_spans s p
        ≡ is_ram (record { rows = rows.now; areas = areas.now }) p) }
{
    let whole = PageSet::from_spans(alloc, whole_spans(alloc, rows)?)?;
    let mut taken = Vec::new(alloc);
    push_other_rows(&mut taken, rows)?;
    push_areas(&mut taken, areas)?;
    let taken = PageSet::from_spans(alloc, taken)?;
    whole.difference(&taken)
}
