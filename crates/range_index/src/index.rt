//! Ranges that do not meet.

ghost use Rattle.std.specs.Prelude.{◌≡◌, ℕ, ◌<◌, ◌≤◌, [], false, OnOk, OnErr, IfSome, IfNone, IsSome};
ghost use Rattle.std.specs.Ordering.{nat_cmp};
ghost use Rattle.std.specs.BTreeMap as tree;
ghost use Rattle.range_index.specs.inner.Ranges.{meets_any, AreApart, AreWith};

use std::alloc::{AllocError, Global};
use std::collections::BTreeMap;
use std::marker::Model;

/// Ranges of numbers, each with a number in it, of which no two have a number in common. Contracts see them as the list
/// of the pairs of their first number and the number behind their last, in rising order.
#[derive(Drop)]
pub struct RangeIndex {
    /// The numbers behind the ranges, by their first numbers.
    ends: BTreeMap<u64, u64>,
}

impl Model for RangeIndex {
    ghost use Rattle.std.specs.Prelude.{List};
    ghost use Rattle.range_index.specs.inner.Ranges.{Range, AreApart};

    ghost Value = { List Range };

    ghost view = { λ s. s.ends.entries };

    ghost invariant = { λ s. AreApart 0 s.ends.entries };
}

// The start and the end of the range that starts last of those that start before `end`.
fn last_before(ends: &BTreeMap<u64, u64>, end: u64) -> Option<(u64, u64)>
    ensures none { IfNone result ((q : ℕ) → q < end → tree.get nat_cmp ends.now q ≡ None) }
    ensures before { IfSome result (λ r. r.0 < end) }
    ensures some { IfSome result (λ r. tree.get nat_cmp ends.now r.0 ≡ Some r.1) }
    ensures last { IfSome result (λ r. (q : ℕ) → q < end
        → IsSome (tree.get nat_cmp ends.now q) → q ≤ r.0) }
{
    match ends.range(..end).next_back() {
        Some((start, end)) => Some((*start, *end)),
        None => None,
    }
}

impl RangeIndex {
    /// No range.
    pub fn new(alloc: Global) -> RangeIndex
        ensures { result ≡ [] }
    {
        RangeIndex {
            ends: BTreeMap::new(alloc),
        }
    }

    /// Whether one of the ranges has a number from `start` on and before `end`. No number is where `start` is not
    /// before `end`.
    pub fn meets(&self, start: u64, end: u64) -> bool
        ensures { result ≡ meets_any (start, end) self.now }
    {
        if start >= end {
            return false;
        }
        // No two ranges meet, so those that start before the last such one end before it too.
        match last_before(&self.ends, end) {
            Some((_, last_end)) => start < last_end,
            None => false,
        }
    }

    /// Puts the range from `start` on and before `end` to the others, none of which it meets. After want of memory the
    /// ranges are as before.
    pub fn add(&mut self, start: u64, end: u64) -> Result<(), AllocError>
        requires some { start < end }
        requires apart { meets_any (start, end) self.old ≡ false }
        ensures ranges { OnOk result (AreWith self.old (start, end) self.new) }
        ensures failed { OnErr result (self.new ≡ self.old) }
    {
        self.ends.insert(start, end)?;
        Ok(())
    }
}
