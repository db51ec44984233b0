//! The first page of the segments that fails a test.

ghost use Rattle.std.specs.Prelude.{◌≡◌, ◌+◌, not};
ghost use Rattle.std.specs.List.{find, range_with_len};
ghost use Rattle.std.specs.Ordering.{nat_cmp};
ghost use Rattle.std.specs.BTreeSet.{contains};
ghost use Rattle.page_memory.specs.Contents.{at};
ghost use Rattle.segments.specs.Values.{want, pages};
ghost use Rattle.list_checker.specs.Crash.{lacks};

use crate::reasons::has_its_bytes;
use kx_pages::{Page, Span};
use page_memory::Memory;
use segments::Segments;
use std::collections::BTreeSet;

// The first page of a run that is not in the set.
fn outside_in_run(set: &BTreeSet<Page>, run: Span) -> Option<Page>
    ensures { result ≡ find (λ p. not (contains nat_cmp set.now p))
        (range_with_len run.first run.count) }
{
    let first = run.first();
    let count = run.count();
    for n in first..first + count {
        let page = Page::from_number(n);
        if !set.contains(&page) {
            return Some(page);
        }
    }
    None
}

/// The first page of the segments that is not in the set.
pub(crate) fn first_outside(segments: &Segments, set: &BTreeSet<Page>) -> Option<Page>
    ensures { result ≡ find (λ p. not (contains nat_cmp set.now p)) (pages segments.now) }
{
    for i in 0..segments.count() {
        if let Some(page) = outside_in_run(set, segments.span(i)) {
            return Some(page);
        }
    }
    None
}

// The first page of a run that does not hold what it is to have.
fn lacking_in_run(memory: &Memory, segments: &Segments, run: Span) -> Option<Page>
    ensures { result ≡ find (lacks (at memory.now) (want segments.now))
        (range_with_len run.first run.count) }
{
    let first = run.first();
    let count = run.count();
    for n in first..first + count {
        let page = Page::from_number(n);
        if !has_its_bytes(memory, segments, page, page) {
            return Some(page);
        }
    }
    None
}

/// The first page of the segments that does not hold what it is to have.
pub(crate) fn first_lacking(memory: &Memory, segments: &Segments) -> Option<Page>
    ensures { result ≡ find (lacks (at memory.now) (want segments.now)) (pages segments.now) }
{
    for i in 0..segments.count() {
        if let Some(page) = lacking_in_run(memory, segments, segments.span(i)) {
            return Some(page);
        }
    }
    None
}
