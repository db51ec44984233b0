//! The call, and what is asked of a place.

ghost use Rattle.std.specs.Prelude.{◌≡◌, ℕ, ◌+◌, ◌<◌, ◌≤◌, ◌^◌, Bool, Option, IfSome};
ghost use Rattle.kx_pages.specs.Spans.{in_spans};
ghost use Rattle.hole_search.specs.declared.search.End.{End};
ghost use Rattle.hole_search.specs.declared.search.Wanted.{Wanted};
ghost use Rattle.hole_search.specs.inner.Holes.{IsHole};

use crate::downwards::greatest;
use crate::upwards::least;
use kx_pages::PageSet;

/// Which of the addresses that fit is wanted.
#[derive(Clone, Copy)]
pub enum End {
    /// The lowest one.
    Least,
    /// The highest one.
    Greatest,
}

/// What a place is to be like.
#[derive(Clone, Copy)]
pub(crate) struct Wanted {
    pub(crate) size: u64,
    pub(crate) align: u64,
    pub(crate) min: u64,
    pub(crate) max: u64,
}

/// The least or the greatest address `a` that fits: a multiple of `align`, not below `min`, with `a + size - 1` not
/// above `max`, where each page from `a` to `a + size - 1` is in `ram` and none is in `taken`. None exactly where no
/// address fits.
///
/// It asks for a `size` from 1 to 2^46 - 1 and an `align` from 1 to 2^45. (The parts of a kernel are whole pages at
/// powers of two, but the search needs neither.) It takes no memory.
pub fn find(
    ram: &PageSet,
    taken: &PageSet,
    size: u64,
    align: u64,
    min: u64,
    max: u64,
    end: End,
) -> Option<u64>
    requires some { 0 < size }
    requires size { size < 2 ^ 46 }
    requires aligned { 0 < align }
    requires align { align ≤ 2 ^ 45 }
    ensures hole { IsHole end (in_spans ram.now) (in_spans taken.now)
        (record { size = size; align = align; min = min; max = max }) result }
    ensures low { IfSome result (λ a. a + size ≤ 2 ^ 46) }
{
    let wanted = Wanted {
        size,
        align,
        min,
        max,
    };
    match end {
        End::Least => least(ram, taken, wanted),
        End::Greatest => greatest(ram, taken, wanted),
    }
}

/// A hole depends on which pages are in the two sets, and on nothing else of them.
pub fn holes_speak_of_pages()
    ensures { (end : End) (w : Wanted) (ram taken others gone : ℕ → Bool) (found : Option ℕ)
        → ((q : ℕ) → ram q ≡ others q) → ((q : ℕ) → taken q ≡ gone q)
        → IsHole end ram taken w found → IsHole end others gone w found }
{}
