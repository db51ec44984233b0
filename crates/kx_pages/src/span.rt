//! Runs of pages.

ghost use Rattle.std.specs.Prelude.{◌≡◌, ℕ, ◌+◌, ◌-◌, ◌≤◌, ◌^◌, ◌↔◌, ◌&&◌, nat_lt, min, IsSome, IfSome};
ghost use Rattle.kx_pages.specs.Spans.{Run, end, in_span};
ghost use Rattle.kx_pages.specs.Ranges.{meets_page};
ghost use Rattle.kx_pages.specs.inner.Ranges.{pages_met};
ghost use Rattle.kx_pages.specs.inner.Edits.{hull, spans_meet};

use crate::page::{ADDRESS_LIMIT, PAGE_LIMIT, PAGE_SIZE};
use crate::rounding::pages_for;
use std::marker::Model;

/// Pages that follow one another: `count` pages from page `first` on. Contracts see the two numbers.
#[derive(Clone, Copy)]
pub struct Span {
    first: u64,
    count: u64,
}

impl Model for Span {
    ghost use Rattle.std.specs.Prelude.{ℕ, ◌+◌, ◌≤◌, ◌^◌};
    ghost use Rattle.kx_pages.specs.Spans.{Run};

    ghost Value = { Run };

    ghost view = { λ s. record { first = s.first; count = s.count } };

    ghost invariant = { λ s. s.first + s.count ≤ 2 ^ 34 };

    ghost inverse = { λ r. record { first = r.first; count = r.count } };
}

impl Span {
    /// The span of these pages. None exactly where `first + count` is over 2^34.
    pub fn new(first: u64, count: u64) -> Option<Span>
        ensures valid { IsSome result ↔ (first + count ≤ 2 ^ 34) }
        ensures value { IfSome result (λ s. s ≡ record { first = first; count = count }) }
    {
        if first <= PAGE_LIMIT && count <= PAGE_LIMIT - first {
            Some(Span { first, count })
        } else {
            None
        }
    }

    /// The pages below 2^34 that have one of the addresses from `start` on and before `stop`. This project's own.
    pub fn meeting(start: u64, stop: u64) -> Span
        ensures exact { result ≡ pages_met start (min stop (2 ^ 46)) }
        ensures pages { (p : ℕ)
            → in_span result p ≡ (nat_lt p (2 ^ 34) && meets_page start stop p) }
        ensures low { stop ≤ 2 ^ 46 → (p : ℕ) → in_span result p ≡ meets_page start stop p }
    {
        let first = (start / PAGE_SIZE).min(PAGE_LIMIT);
        let stop = stop.min(ADDRESS_LIMIT);
        if start < stop {
            Span::between(first, pages_for(stop))
        } else {
            Span::between(first, first)
        }
    }

    /// The number of the first page.
    pub fn first(self) -> u64
        ensures value { result ≡ self.first }
        ensures valid { self.first + self.count ≤ 2 ^ 34 }
    {
        self.first
    }

    /// How many pages.
    pub fn count(self) -> u64
        ensures value { result ≡ self.count }
        ensures valid { self.first + self.count ≤ 2 ^ 34 }
    {
        self.count
    }

    /// The number behind the last page.
    pub(crate) fn end(self) -> u64
        ensures value { result ≡ end self }
        ensures valid { end self ≤ 2 ^ 34 }
    {
        self.first + self.count
    }

    /// The pages from `first` on and before `end`.
    pub(crate) fn between(first: u64, end: u64) -> Span
        requires order { first ≤ end }
        requires low { end ≤ 2 ^ 34 }
        ensures { result ≡ record { first = first; count = end - first } }
    {
        Span {
            first,
            count: end - first,
        }
    }

    /// One span over both.
    pub(crate) fn hull(self, other: Span) -> Span
        ensures { result ≡ hull self other }
    {
        Span::between(self.first().min(other.first()), self.end().max(other.end()))
    }

    /// Whether the page of this number is in the span.
    pub(crate) fn has(self, number: u64) -> bool
        ensures { result ≡ in_span self number }
    {
        self.first <= number && number < self.end()
    }

    /// Whether a page is in both.
    pub(crate) fn meets(self, other: Span) -> bool
        ensures { result ≡ spans_meet self other }
    {
        self.first().max(other.first()) < self.end().min(other.end())
    }
}
