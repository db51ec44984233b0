//! Ranges in an order in which a note is found by halving.

ghost use Rattle.std.specs.Prelude.{◌≡◌, ◌<◌, false, IsTrue, IfOk};
ghost use Rattle.std.specs.List.Sorted.{IsPermutation};
ghost use Rattle.memory_map.specs.declared.row.Row.{Row};
ghost use Rattle.memory_map.specs.Rows.{row_end};
ghost use Rattle.crash_headers.specs.inner.Ranges.{AreSorted, AreRising, HoldSameNotes, IsBehind, IsNotBehind};

use memory_map::Row;
use std::alloc::{AllocError, Global};

/// The number behind a range's last byte.
pub(crate) fn end_of(range: &Row) -> u128
    ensures { result ≡ row_end range.now }
{
    u128::from(range.start) + u128::from(range.size)
}

/// The ranges in the order of their starts.
fn by_starts(alloc: Global, ranges: &[Row]) -> Result<Vec<Row>, AllocError>
    ensures same { IfOk result (λ v. IsPermutation ranges.now v.items) }
    ensures sorted { IfOk result (λ v. AreSorted v.items) }
{
    let mut sorted = Vec::from_slice(alloc, ranges)?;
    sorted.sort_unstable_by_key(|range| range.start);
    Ok(sorted)
}

/// The range ends behind the last of these, or there is none.
fn ends_behind(outer: &[Row], range: &Row) -> bool
    ensures behind { IsTrue result → IsBehind outer.now range.now }
    ensures not_behind { result ≡ false → IsNotBehind outer.now range.now }
{
    match outer.last() {
        Some(last) => end_of(last) < end_of(range),
        None => true,
    }
}

/// Those of the sorted ranges that end behind all in front of them. A note that lies in one of the others lies in one of
/// these too, which starts no later and ends no sooner.
fn outermost(alloc: Global, sorted: &[Row]) -> Result<Vec<Row>, AllocError>
    requires { AreSorted sorted.now }
    ensures notes { IfOk result (λ v. HoldSameNotes v.items sorted.now) }
    ensures rising { IfOk result (λ v. AreRising v.items) }
{
    let mut outer = Vec::with_capacity(alloc, sorted.len())?;
    for range in sorted {
        if ends_behind(&outer, range) {
            outer.push(*range)?;
        }
    }
    Ok(outer)
}

/// Ranges that rise, in which the same notes lie as in these.
pub(crate) fn rising(alloc: Global, ranges: &[Row]) -> Result<Vec<Row>, AllocError>
    ensures notes { IfOk result (λ v. HoldSameNotes v.items ranges.now) }
    ensures rising { IfOk result (λ v. AreRising v.items) }
{
    let sorted = by_starts(alloc, ranges)?;
    let outer = outermost(alloc, &sorted)?;
    Ok(outer)
}
