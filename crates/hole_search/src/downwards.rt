//! The search from the back.

ghost use Rattle.std.specs.Prelude.{ℕ, ◌+◌, ◌<◌, ◌≤◌, ◌^◌, length, IfSome, IfNone};
ghost use Rattle.kx_pages.specs.Spans.{in_spans, AreApart};
ghost use Rattle.hole_search.specs.declared.search.End.TheVariants.{Greatest};
ghost use Rattle.hole_search.specs.inner.Holes.{IsHole};
ghost use Rattle.hole_search.specs.inner.Walk.{IsBounded, IsClear, AreAhead};

use crate::bounds::{end_of, round_down, start_of};
use crate::search::Wanted;
use kx_pages::PageSet;

/// The greatest multiple of the alignment up to `start` with which no page is taken. The spans from number `*upto` on
/// were passed.
fn clear_down(taken: &PageSet, upto: &mut usize, wanted: Wanted, start: u64) -> Option<u64>
    requires bounded { IsBounded wanted }
    requires low { start + wanted.size ≤ 2 ^ 46 }
    requires within { upto.old ≤ length taken.now }
    requires apart { AreApart 0 taken.now }
    requires passed { AreAhead taken.now upto.old (start + wanted.size) }
    ensures within { upto.new ≤ length taken.now }
    ensures below { IfSome result (λ a. a ≤ start) }
    ensures clear { IfSome result (λ a. IsClear (in_spans taken.now) wanted a) }
    ensures greatest { IfSome result (λ a. (x : ℕ) → IsClear (in_spans taken.now) wanted x
        → x ≤ start → x ≤ a) }
    ensures none { IfNone result ((x : ℕ) → IsClear (in_spans taken.now) wanted x → x ≤ start → ⊥) }
    ensures passed { IfSome result (λ a. AreAhead taken.now upto.new (a + wanted.size)) }
{
    // What stays true: each clear address up to `start` is `at` or lower, and the spans that were passed start at
    // `at + size` or above.
    let mut at = round_down(start, wanted.align);
    while *upto > 0 {
        let part = taken.span(*upto - 1);
        if end_of(part) <= at {
            return Some(at);
        }
        if start_of(part) < at + wanted.size {
            if start_of(part) < wanted.size {
                return None;
            }
            at = round_down(start_of(part) - wanted.size, wanted.align);
        }
        *upto -= 1;
    }
    Some(at)
}

/// The greatest address that fits.
pub(crate) fn greatest(ram: &PageSet, taken: &PageSet, wanted: Wanted) -> Option<u64>
    requires { IsBounded wanted }
    ensures hole { IsHole Greatest (in_spans ram.now) (in_spans taken.now) wanted result }
    ensures low { IfSome result (λ a. a + wanted.size ≤ 2 ^ 46) }
{
    // What stays true: each address that fits is `at` or lower, its last page lies in a span of RAM that is not yet
    // behind, and the taken spans from number `upto` on start at `at + size` or above.
    let mut at = wanted.max.checked_sub(wanted.size - 1)?;
    let mut upto = taken.spans();
    for i in (0..ram.spans()).rev() {
        let room = ram.span(i);
        at = at.min(end_of(room).checked_sub(wanted.size)?);
        if start_of(room) <= at {
            at = clear_down(taken, &mut upto, wanted, at)?;
            if start_of(room) <= at {
                return if wanted.min <= at { Some(at) } else { None };
            }
        }
    }
    None
}
