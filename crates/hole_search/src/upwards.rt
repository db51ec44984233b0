//! The search from the front.

ghost use Rattle.std.specs.Prelude.{ℕ, ◌+◌, ◌<◌, ◌≤◌, ◌^◌, IfSome};
ghost use Rattle.kx_pages.specs.Spans.{in_spans};
ghost use Rattle.hole_search.specs.declared.search.End.TheVariants.{Least};
ghost use Rattle.hole_search.specs.inner.Holes.{IsHole};
ghost use Rattle.hole_search.specs.inner.Walk.{IsBounded, IsClear, ArePassed};

use crate::bounds::{end_of, round_up, start_of};
use crate::search::Wanted;
use kx_pages::PageSet;

/// The least multiple of the alignment from `start` on with which no page is taken. Span number `*from` is the first
/// that was not passed.
fn clear_up(taken: &PageSet, from: &mut usize, wanted: Wanted, start: u64) -> u64
    requires bounded { IsBounded wanted }
    requires low { start < 2 ^ 46 }
    requires passed { ArePassed taken.now from.old start }
    ensures above { start ≤ result }
    ensures low { result < 2 ^ 47 }
    ensures clear { IsClear (in_spans taken.now) wanted result }
    ensures least { (x : ℕ) → IsClear (in_spans taken.now) wanted x → start ≤ x → result ≤ x }
    ensures passed { ArePassed taken.now from.new result }
{
    // What stays true: each clear address from `start` on is `at` or higher, and the spans that were passed end at
    // `at` or below.
    let mut at = round_up(start, wanted.align);
    while *from < taken.spans() {
        let part = taken.span(*from);
        if at + wanted.size <= start_of(part) {
            return at;
        }
        if at < end_of(part) {
            at = round_up(end_of(part), wanted.align);
        }
        *from += 1;
    }
    at
}

/// The least address that fits.
pub(crate) fn least(ram: &PageSet, taken: &PageSet, wanted: Wanted) -> Option<u64>
    requires { IsBounded wanted }
    ensures hole { IsHole Least (in_spans ram.now) (in_spans taken.now) wanted result }
    ensures low { IfSome result (λ a. a + wanted.size ≤ 2 ^ 46) }
{
    // What stays true: each address that fits is `at` or higher, it lies in span number `i` of RAM or a later one,
    // and the taken spans before number `from` end at `at` or below.
    let mut at = wanted.min;
    let mut from = 0;
    for i in 0..ram.spans() {
        let room = ram.span(i);
        at = at.max(start_of(room));
        if at < end_of(room) {
            at = clear_up(taken, &mut from, wanted, at);
            if at + wanted.size <= end_of(room) {
                return if at + (wanted.size - 1) <= wanted.max {
                    Some(at)
                } else {
                    None
                };
            }
        }
    }
    None
}
