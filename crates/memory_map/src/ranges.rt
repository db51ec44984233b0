//! The System RAM outside the crash areas, and the rows of a crash kernel.

ghost use Rattle.std.specs.Prelude.{◌≡◌, ℕ, ◌+◌, ◌++◌, ◌∷◌, ◌||◌, ◌-◌, ◌≤◌, ◌<◌, ◌^◌, [], List, max, not, length, drop, filter, OnOk, IfOk, IfSome, IfNone};
ghost use Rattle.std.specs.List.{All};
ghost use Rattle.std.specs.List.Sorted.{IsNonDecreasingBy};
ghost use Rattle.memory_map.specs.declared.row.Row.{Row};
ghost use Rattle.memory_map.specs.Rows.{row_end, is_inside, is_ram_row};
ghost use Rattle.memory_map.specs.inner.Rows.{covers, IsBelow, AreBelow, HasBytes, HaveBytes, AreParts, StartUpTo};
ghost use Rattle.memory_map.specs.inner.Walk.{part, walk};
ghost use Rattle.memory_map.specs.Maps.{outside, core_ranges, reserved_row};

use crate::row::Row;
use kx_pages::{PAGE_SIZE, Span};
use std::alloc::{AllocError, Global};

/// Puts an area behind others that rise: it becomes one with the last where they meet or touch.
fn push_area(made: &mut Vec<Row>, area: Row) -> Result<(), AllocError>
    requires parts { AreParts 0 0 made.old.items }
    requires order { StartUpTo area.start made.old.items }
    requires area { IsBelow area }
    ensures parts { OnOk result (AreParts 0 0 made.new.items) }
    ensures order { OnOk result ((n : ℕ) → area.start ≤ n → StartUpTo n made.new.items) }
    ensures bytes { OnOk result ((q : ℕ) → covers q made.new.items
        ≡ (covers q made.old.items || is_inside q area)) }
{
    if area.size == 0 {
        return Ok(());
    }
    let area = Row { kind: 0, ..area };
    match made.pop() {
        None => {
            made.push(area)?;
            Ok(())
        }
        Some(last) => push_behind(made, last, area),
    }
}

/// One area over both, the second of which does not start before the first.
fn join(last: Row, area: Row) -> Row
    requires last { IsBelow last }
    requires area { IsBelow area }
    ensures { result ≡ record {
      start = last.start;
      size = max (row_end last) (row_end area) - last.start;
      kind = 0;
    } }
{
    let end = (last.start + last.size).max(area.start + area.size);
    Row {
        start: last.start,
        size: end - last.start,
        kind: 0,
    }
}

/// Puts an area behind the last one, which is given apart.
fn push_behind(made: &mut Vec<Row>, last: Row, area: Row) -> Result<(), AllocError>
    requires parts { AreParts 0 0 (made.old.items ++ last ∷ []) }
    requires order { StartUpTo area.start (made.old.items ++ last ∷ []) }
    requires area { IsBelow area }
    requires some { 0 < area.size }
    requires kind { area.kind ≡ 0 }
    requires last { IsBelow last }
    ensures parts { OnOk result (AreParts 0 0 made.new.items) }
    ensures order { OnOk result ((n : ℕ) → area.start ≤ n → StartUpTo n made.new.items) }
    ensures bytes { OnOk result ((q : ℕ) → covers q made.new.items
        ≡ (covers q (made.old.items ++ last ∷ []) || is_inside q area)) }
{
    if area.start <= last.start + last.size {
        made.push(join(last, area))?;
        return Ok(());
    }
    made.push(last)?;
    made.push(area)?;
    Ok(())
}

fn merge_sorted(alloc: Global, areas: &[Row]) -> Result<Vec<Row>, AllocError>
    requires below { All (λ r. IsBelow r) areas.now }
    requires order { IsNonDecreasingBy (λ r. r.start) areas.now }
    ensures parts { IfOk result (λ v. AreParts 0 0 v.items) }
    ensures bytes { IfOk result (λ v. (q : ℕ) → covers q v.items ≡ covers q areas.now) }
{
    let mut made = Vec::new(alloc);
    for area in areas {
        push_area(&mut made, *area)?;
    }
    Ok(made)
}

/// The bytes of the areas as areas that rise, none empty, no two of which meet or touch. They are sorted once.
fn merge(alloc: Global, areas: &[Row]) -> Result<Vec<Row>, AllocError>
    requires { AreBelow areas.now }
    ensures parts { IfOk result (λ v. AreParts 0 0 v.items) }
    ensures bytes { IfOk result (λ v. (q : ℕ) → covers q v.items ≡ covers q areas.now) }
{
    let mut sorted = Vec::new(alloc);
    sorted.extend_from_slice(areas)?;
    sorted.sort_unstable_by_key(|area| area.start);
    merge_sorted(alloc, &sorted)
}

/// Adds the bytes from `start` on and before `end`, if there are any.
fn push_part(out: &mut Vec<Row>, start: u64, end: u64, kind: u32) -> Result<(), AllocError>
    requires end { end ≤ 2 ^ 46 }
    requires out { AreBelow out.old.items }
    ensures items { OnOk result (out.new.items ≡ out.old.items ++ part start end kind) }
    ensures below { OnOk result (AreBelow out.new.items) }
{
    if start < end {
        out.push(Row {
            start,
            size: end - start,
            kind,
        })?;
    }
    Ok(())
}

/// An area before which no area has a byte at `start` or above.
fn first_near(areas: &[Row], start: u64) -> usize
    requires { AreParts 0 0 areas.now }
    ensures { (e k : ℕ) → walk start e k areas.now ≡ walk start e k (drop result areas.now) }
{
    areas
        .partition_point(|area| area.start <= start)
        .saturating_sub(1)
}

/// The area number `i`, where it starts before `end`.
fn area_before(areas: &[Row], i: usize, end: u64) -> Option<Row>
    requires { AreParts 0 0 areas.now }
    ensures none { IfNone result ((at k : ℕ) → walk at end k (drop i areas.now) ≡ part at end k) }
    ensures next { IfSome result (λ a. drop i areas.now ≡ a ∷ drop (i + 1) areas.now) }
    ensures within { IfSome result (λ a. (i < length areas.now) × (a.start < end)
        × (row_end a ≤ 2 ^ 46)) }
{
    if i >= areas.len() {
        return None;
    }
    let area = areas[i];
    if area.start >= end {
        return None;
    }
    Some(area)
}

/// Adds the ranges of a row that are outside the areas, which rise.
fn push_outside(out: &mut Vec<Row>, areas: &[Row], row: Row) -> Result<(), AllocError>
    requires areas { AreParts 0 0 areas.now }
    requires row { IsBelow row }
    requires some { HasBytes row }
    requires out { AreBelow out.old.items }
    ensures items { OnOk result ((all : List Row) → ((q : ℕ) → covers q all ≡ covers q areas.now)
        → out.new.items ≡ out.old.items ++ outside all (row ∷ [])) }
    ensures below { OnOk result (AreBelow out.new.items) }
{
    let end = row.start + row.size;
    let mut at = row.start;
    let mut i = first_near(areas, row.start);
    while let Some(area) = area_before(areas, i, end) {
        push_part(out, at, area.start, row.kind)?;
        at = at.max(area.start + area.size);
        i += 1;
    }
    push_part(out, at, end, row.kind)?;
    Ok(())
}

fn ram_rows(alloc: Global, rows: &[Row]) -> Result<Vec<Row>, AllocError>
    requires below { AreBelow rows.now }
    requires some { HaveBytes rows.now }
    ensures items { IfOk result (λ v. v.items ≡ filter (λ r. is_ram_row r) rows.now) }
    ensures below { IfOk result (λ v. AreBelow v.items) }
    ensures some { IfOk result (λ v. HaveBytes v.items) }
{
    let mut ram = Vec::new(alloc);
    for row in rows {
        if row.kind == 1 {
            ram.push(*row)?;
        }
    }
    Ok(ram)
}

/// The ranges of the rows that are outside the areas, which rise.
fn all_outside(alloc: Global, areas: &[Row], rows: &[Row]) -> Result<Vec<Row>, AllocError>
    requires areas { AreParts 0 0 areas.now }
    requires below { AreBelow rows.now }
    requires some { HaveBytes rows.now }
    ensures items { IfOk result (λ v. (all : List Row)
        → ((q : ℕ) → covers q all ≡ covers q areas.now) → v.items ≡ outside all rows.now) }
    ensures below { IfOk result (λ v. AreBelow v.items) }
{
    let mut out = Vec::new(alloc);
    for row in rows {
        push_outside(&mut out, areas, *row)?;
    }
    Ok(out)
}

/// The System RAM outside the areas, row after row. The areas are sorted once, and each row walks along those near it.
pub(crate) fn core_ranges(
    alloc: Global,
    rows: &[Row],
    areas: &[Row],
) -> Result<Vec<Row>, AllocError>
    requires rows { AreBelow rows.now }
    requires some { HaveBytes rows.now }
    requires areas { AreBelow areas.now }
    ensures items { IfOk result (λ v. v.items
        ≡ core_ranges (record { rows = rows.now; areas = areas.now })) }
    ensures below { IfOk result (λ v. AreBelow v.items) }
{
    let areas = merge(alloc, areas)?;
    let ram = ram_rows(alloc, rows)?;
    let ranges = all_outside(alloc, &areas, &ram)?;
    Ok(ranges)
}

fn push_other_rows(out: &mut Vec<Row>, rows: &[Row]) -> Result<(), AllocError>
    requires rows { AreBelow rows.now }
    requires out { AreBelow out.old.items }
    ensures items { OnOk result (out.new.items ≡ out.old.items
        ++ filter (λ r. not (is_ram_row r)) rows.now) }
    ensures below { OnOk result (AreBelow out.new.items) }
{
    for row in rows {
        if row.kind != 1 {
            out.push(*row)?;
        }
    }
    Ok(())
}

/// The reserved area as RAM, and then the rows of kinds 2, 3 and 4.
pub(crate) fn crash_rows(
    alloc: Global,
    reserved: Option<Span>,
    rows: &[Row],
) -> Result<Vec<Row>, AllocError>
    requires { AreBelow rows.now }
    ensures items { IfOk result (λ v. v.items ≡ reserved_row reserved
        ++ filter (λ r. not (is_ram_row r)) rows.now) }
    ensures below { IfOk result (λ v. AreBelow v.items) }
{
    let mut out = Vec::new(alloc);
    if let Some(span) = reserved {
        out.push(Row {
            start: PAGE_SIZE * span.first(),
            size: PAGE_SIZE * span.count(),
            kind: 1,
        })?;
    }
    push_other_rows(&mut out, rows)?;
    Ok(out)
}
