//! Searches in spans that rise, by halving.

ghost use Rattle.std.specs.Prelude.{◌≡◌};
ghost use Rattle.std.specs.List.{list_any, slice_get};
ghost use Rattle.kx_pages.specs.Spans.{in_spans, AreApart};
ghost use Rattle.kx_pages.specs.inner.Edits.{spans_meet, reaching};

use crate::span::Span;

// The first span that ends behind the page `number`.
fn first_reaching(spans: &[Span], number: u64) -> Option<Span>
    requires { AreApart 0 spans.now }
    ensures { result ≡ reaching spans.now number }
{
    let i = spans.partition_point(|s| s.end() <= number);
    span_at(spans, i)
}

// Span number `i`. None where there are not so many.
#[tactic(auto, using(std::proofs::lemmas::Option::slice_get_read, std::proofs::lemmas::Option::slice_get_past))]
fn span_at(spans: &[Span], i: usize) -> Option<Span>
    ensures { result ≡ slice_get spans.now i }
{
    if i < spans.len() {
        Some(spans[i])
    } else {
        None
    }
}

/// Whether the page `number` is in one of the spans.
pub(crate) fn any_has(spans: &[Span], number: u64) -> bool
    requires { AreApart 0 spans.now }
    ensures { result ≡ in_spans spans.now number }
{
    match first_reaching(spans, number) {
        Some(s) => s.has(number),
        None => false,
    }
}

/// Whether a page of `span` is in one of the spans.
pub(crate) fn any_meets(spans: &[Span], span: Span) -> bool
    requires { AreApart 0 spans.now }
    ensures { result ≡ list_any (λ r. spans_meet r span) spans.now }
{
    match first_reaching(spans, span.first()) {
        Some(s) => s.meets(span),
        None => false,
    }
}
