//! Putting the pages of a crash kernel in their place.

ghost use Rattle.std.specs.Prelude.{◌≡◌, ◌⊎◌, ℕ, ◌+◌, ◌++◌, ◌<◌, ◌≤◌, Some, IsSome, IsTrue, IfOk, OnOk};
ghost use Rattle.std.specs.List.{range_with_len};
ghost use Rattle.kx_pages.specs.Spans.{in_spans, AreApart};
ghost use Rattle.page_memory.specs.Contents.{at};
ghost use Rattle.page_memory.specs.inner.Contents.{IsHeld};
ghost use Rattle.segments.specs.Values.{want};
ghost use Rattle.load_states.specs.inner.Laying.{Lays, pages_of_spans};

use kx_pages::{Page, PageSet, Span};
use page_memory::Memory;
use segments::Segments;
use std::alloc::{AllocError, Global};

// Puts the span's pages behind the pages.
fn push_span(pages: &mut Vec<Page>, span: Span) -> Result<(), AllocError>
    ensures { OnOk result (pages.new.items ≡ pages.old.items
        ++ range_with_len span.first span.count) }
{
    for i in 0..span.count() {
        pages.push(Page::from_number(span.first() + i))?;
    }
    Ok(())
}

/// The pages of the set, in rising order. This project's own.
pub fn rising_pages(alloc: Global, set: &PageSet) -> Result<Vec<Page>, AllocError>
    ensures value { IfOk result (λ pages. pages.items ≡ pages_of_spans set.now) }
    ensures apart { IfOk result (λ _. AreApart 0 set.now) }
{
    let mut pages = Vec::new(alloc);
    pages.reserve_exact(set.total() as usize)?;
    for i in 0..set.spans() {
        push_span(&mut pages, set.span(i))?;
    }
    Ok(pages)
}

/// Each page of the set is held, and no other becomes so; room is made at once. What memory reads as stays, after want
/// of memory too.
pub(crate) fn hold_set(alloc: Global, memory: &mut Memory, set: &PageSet) -> Result<(), AllocError>
    ensures held { OnOk result ((p : ℕ) → IsTrue (in_spans set.now p) → IsHeld memory.new p) }
    ensures same { (q : ℕ) → at memory.new q ≡ at memory.old q }
    ensures sets { memory.new.sets ≡ memory.old.sets }
    ensures stay { (q : ℕ) → IsHeld memory.old q → IsHeld memory.new q }
    ensures only { (q : ℕ) → IsHeld memory.new q →
        IsHeld memory.old q ⊎ IsTrue (in_spans set.now q) }
{
    let pages = rising_pages(alloc, set)?;
    memory.hold_all(&pages)
}

// The page becomes what it is to have, where it is to have something.
fn lay_page(memory: &mut Memory, segments: &Segments, page: Page)
    requires { IsHeld memory.old page }
    ensures lays { Lays segments.now (at memory.old) (at memory.new) }
    ensures right { IsSome (want segments.now page) →
        want segments.now page ≡ Some (at memory.new page) }
    ensures stay { (q : ℕ) → IsHeld memory.old q → IsHeld memory.new q }
    ensures only { (q : ℕ) → IsHeld memory.new q → IsHeld memory.old q }
{
    if let Some(bytes) = segments.wanted(page) {
        memory.set(page, bytes);
    }
}

fn lay_span(memory: &mut Memory, segments: &Segments, span: Span)
    requires { (p : ℕ) → span.first ≤ p → p < span.first + span.count → IsHeld memory.old p }
    ensures lays { Lays segments.now (at memory.old) (at memory.new) }
    ensures right { (p : ℕ) → span.first ≤ p → p < span.first + span.count →
        IsSome (want segments.now p) → want segments.now p ≡ Some (at memory.new p) }
    ensures stay { (q : ℕ) → IsHeld memory.old q → IsHeld memory.new q }
    ensures only { (q : ℕ) → IsHeld memory.new q → IsHeld memory.old q }
{
    for n in span.first()..span.first() + span.count() {
        lay_page(memory, segments, Page::from_number(n));
    }
}

/// Each page of the set becomes what it is to have, where it is to have something. Every other page stays. What is
/// held stays the same.
pub(crate) fn lay_set(memory: &mut Memory, segments: &Segments, set: &PageSet)
    requires { (p : ℕ) → IsTrue (in_spans set.now p) → IsHeld memory.old p }
    ensures lays { Lays segments.now (at memory.old) (at memory.new) }
    ensures right { (p : ℕ) → IsTrue (in_spans set.now p) → IsSome (want segments.now p) →
        want segments.now p ≡ Some (at memory.new p) }
    ensures stay { (q : ℕ) → IsHeld memory.old q → IsHeld memory.new q }
    ensures only { (q : ℕ) → IsHeld memory.new q → IsHeld memory.old q }
{
    for i in 0..set.spans() {
        lay_span(memory, segments, set.span(i));
    }
}
