//! Sets of pages.

ghost use Rattle.std.specs.Prelude.{◌≡◌, ℕ, ◌-◌, ◌<◌, ◌≤◌, ◌^◌, ◌↔◌, ◌++◌, ◌∷◌, ◌&&◌, ◌||◌, [], not, nat_lt, List, length, IsTrue, IfOk, IfErr};
ghost use Rattle.std.specs.List.{slice_get, All};
ghost use Rattle.kx_pages.specs.Spans.{Run, end, in_span, in_spans, pages, AreApart, passing};
ghost use Rattle.kx_pages.specs.inner.Spans.{IsMaximal};
ghost use Rattle.kx_pages.specs.inner.Edits.{join, if_some, without, with_rest};

use crate::page::{PAGE_LIMIT, Page};
use crate::search::{any_has, any_meets};
use crate::span::Span;
use std::alloc::{AllocError, Global};
use std::marker::Model;

/// A set of pages, kept as sorted spans that neither meet nor touch: the maximal runs of the set, in rising order.
/// Contracts see the list of these spans, and speak of single pages by `in_spans`.
#[derive(Drop)]
pub struct PageSet {
    spans: Vec<Span>,
}

impl Model for PageSet {
    ghost use Rattle.std.specs.Prelude.{List};
    ghost use Rattle.kx_pages.specs.Spans.{Run, AreApart};

    ghost Value = { List Run };

    ghost view = { λ s. s.spans.items };

    ghost invariant = { λ s. AreApart 0 s.spans.items };
}

impl PageSet {
    /// No page.
    pub fn new(alloc: Global) -> PageSet
        ensures { result ≡ [] }
    {
        PageSet {
            spans: Vec::new(alloc),
        }
    }

    /// The span's pages come in. After want of memory the set is as before.
    pub fn add(&mut self, span: Span) -> Result<(), AllocError>
        ensures pages { IfOk result (λ _. (q : ℕ) → in_spans self.new q
            ≡ (in_spans self.old q || in_span span q)) }
        ensures failed { IfErr result (λ _. self.new ≡ self.old) }
    {
        if span.count() > 0 {
            put_among(&mut self.spans, span)?;
        }
        Ok(())
    }

    /// The span's pages go out. After want of memory the set is as before.
    pub fn cut(&mut self, span: Span) -> Result<(), AllocError>
        ensures pages { IfOk result (λ _. (q : ℕ) → in_spans self.new q
            ≡ (in_spans self.old q && not (in_span span q))) }
        ensures failed { IfErr result (λ _. self.new ≡ self.old) }
    {
        if span.count() > 0 {
            self.spans = cut_out(*self.spans.allocator(), &self.spans, span)?;
        }
        Ok(())
    }

    /// Whether one of the span's pages is in the set.
    pub fn meets(&self, span: Span) -> bool
        ensures { IsTrue result ↔ ((q : ℕ) × IsTrue (in_spans self.now q)
            × IsTrue (in_span span q)) }
    {
        any_meets(&self.spans, span)
    }

    /// Whether the page is in the set.
    pub fn holds(&self, p: Page) -> bool
        ensures { result ≡ in_spans self.now p }
    {
        let number = p.number();
        any_has(&self.spans, number)
    }

    /// The number of pages.
    pub fn total(&self) -> u64
        ensures sum { result ≡ pages self.now }
        ensures count { (n : ℕ) → 2 ^ 34 ≤ n → result ≡ passing (in_spans self.now) n }
    {
        let mut total = 0;
        for s in &self.spans {
            total += s.count();
        }
        total
    }

    /// The number of spans, which are the maximal runs of pages in the set.
    pub fn spans(&self) -> usize
        ensures value { result ≡ length self.now }
        ensures apart { AreApart 0 self.now }
    {
        self.spans.len()
    }

    /// The span number `i`, in rising order.
    pub fn span(&self, i: usize) -> Span
        requires { i < length self.now }
        ensures value { slice_get self.now i ≡ Some result }
        ensures whole { IsMaximal self.now result }
    {
        self.spans[i]
    }

    /// The pages of these spans, which may stand in any order, meet and be empty. They are sorted once.
    pub fn from_spans(alloc: Global, mut spans: Vec<Span>) -> Result<PageSet, AllocError>
        ensures { IfOk result (λ s. (q : ℕ) → in_spans s q ≡ in_spans spans.items q) }
    {
        spans.sort_unstable_by_key(|s| s.first());
        gather(alloc, &spans)
    }

    /// The pages of this set that are not in the other, found in one pass over both.
    pub fn difference(&self, other: &PageSet) -> Result<PageSet, AllocError>
        ensures { IfOk result (λ s. (q : ℕ) → in_spans s q
            ≡ (in_spans self.now q && not (in_spans other.now q))) }
    {
        let alloc = *self.spans.allocator();
        let mut out = gaps(alloc, &self.spans)?;
        out.extend_from_slice(&other.spans)?;
        let out = PageSet::from_spans(alloc, out)?;
        let spans = gaps(alloc, &out.spans)?;
        Ok(PageSet { spans })
    }

    /// A set of the same pages.
    pub fn try_copy(&self) -> Result<PageSet, AllocError>
        ensures { IfOk result (λ s. s ≡ self.now) }
    {
        Ok(PageSet {
            spans: self.spans.clone()?,
        })
    }
}

/// Two sets of the same pages have the same spans.
pub fn have_one_form(a: &PageSet, b: &PageSet)
    ensures { ((q : ℕ) → in_spans a.now q ≡ in_spans b.now q) → a.now ≡ b.now }
{
    // for its clause: what every value of the type keeps
    let _ = a.spans();
    let _ = b.spans();
}

// Whether all spans end before the page `first`, and none touches it.
fn all_before(spans: &[Span], first: u64) -> bool
    requires { AreApart 0 spans.now }
    ensures { IsTrue result → All (λ r. end r < first) spans.now }
{
    match spans.last() {
        Some(last) => last.end() < first,
        None => true,
    }
}

// Puts a span among those that rise: at the end where it lies behind all of them.
fn put_among(spans: &mut Vec<Span>, span: Span) -> Result<(), AllocError>
    requires { AreApart 0 spans.old.items }
    ensures ok { IfOk result (λ _. spans.new.items ≡ join spans.old.items span) }
    ensures err { IfErr result (λ _. spans.new.items ≡ spans.old.items) }
{
    if all_before(spans, span.first()) {
        spans.push(span)?;
    } else {
        *spans = join(*spans.allocator(), spans, span)?;
    }
    Ok(())
}

/// Puts `s` behind the spans, after or into what is still to come in.
#[tactic(auto, using(crate::proofs::Sets::join_rules))]
fn put(made: &mut Vec<Span>, rest: Option<Span>, s: Span) -> Result<Option<Span>, AllocError>
    ensures { IfOk result (λ r. (xs : List Run) → made.new.items ++ with_rest r xs
        ≡ made.old.items ++ with_rest rest (s ∷ xs)) }
{
    match rest {
        None => {
            made.push(s)?;
            Ok(None)
        }
        Some(r) => {
            if s.end() < r.first() {
                made.push(s)?;
                Ok(Some(r))
            } else if r.end() < s.first() {
                made.push(r)?;
                made.push(s)?;
                Ok(None)
            } else {
                Ok(Some(s.hull(r)))
            }
        }
    }
}

fn join(alloc: Global, spans: &[Span], span: Span) -> Result<Vec<Span>, AllocError>
    ensures { IfOk result (λ v. v.items ≡ join spans.now span) }
{
    let mut made = Vec::new(alloc);
    let mut rest = Some(span);
    for s in spans {
        rest = put(&mut made, rest, *s)?;
    }
    if let Some(r) = rest {
        made.push(r)?;
    }
    Ok(made)
}

fn push_some(spans: &mut Vec<Span>, first: u64, end: u64) -> Result<(), AllocError>
    requires { end ≤ 2 ^ 34 }
    ensures { IfOk result (λ _. spans.new.items ≡ spans.old.items
        ++ if_some (record { first = first; count = end - first })) }
{
    if first < end {
        spans.push(Span::between(first, end))?;
    }
    Ok(())
}

#[tactic(auto, using(crate::proofs::Sets::cut_rules))]
fn cut_out(alloc: Global, spans: &[Span], span: Span) -> Result<Vec<Span>, AllocError>
    ensures { IfOk result (λ v. v.items ≡ without spans.now span) }
{
    let mut made = Vec::new(alloc);
    for s in spans {
        push_some(&mut made, s.first(), s.end().min(span.first()))?;
        push_some(&mut made, s.first().max(span.end()), s.end())?;
    }
    Ok(made)
}

// Takes in the span `s` after `last`: one over both where they meet or touch, else `last` goes to the set.
fn take_in(set: &mut PageSet, last: Span, s: Span) -> Result<Span, AllocError>
    ensures { IfOk result (λ r. (q : ℕ) → (in_spans set.new q || in_span r q)
        ≡ ((in_spans set.old q || in_span last q) || in_span s q)) }
{
    if s.first() <= last.end() && last.first() <= s.end() {
        Ok(last.hull(s))
    } else {
        set.add(last)?;
        Ok(s)
    }
}

// The pages of these spans. It is fast where the spans rise.
fn gather(alloc: Global, spans: &[Span]) -> Result<PageSet, AllocError>
    ensures { IfOk result (λ set. (q : ℕ) → in_spans set q ≡ in_spans spans.now q) }
{
    let mut set = PageSet::new(alloc);
    let mut last = Span::between(0, 0);
    for s in spans {
        last = take_in(&mut set, last, *s)?;
    }
    set.add(last)?;
    Ok(set)
}

// The runs of pages that are in none of the spans.
fn gaps(alloc: Global, spans: &[Span]) -> Result<Vec<Span>, AllocError>
    requires { AreApart 0 spans.now }
    ensures pages { IfOk result (λ v. (q : ℕ) → in_spans v.items q
        ≡ (nat_lt q (2 ^ 34) && not (in_spans spans.now q))) }
    ensures apart { IfOk result (λ v. AreApart 0 v.items) }
{
    let mut made = Vec::new(alloc);
    let mut from = 0;
    for s in spans {
        push_some(&mut made, from, s.first())?;
        from = s.end();
    }
    push_some(&mut made, from, PAGE_LIMIT)?;
    Ok(made)
}
