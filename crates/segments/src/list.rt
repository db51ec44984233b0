//! The segments of a load: a list that the rules do not refuse.

ghost use Rattle.std.specs.Prelude.{◌≡◌, ℕ, ◌<◌, ◌≤◌, List, length, Some, slice_get, IfSome, MatchResult};
ghost use Rattle.std.specs.Option.{option_map};
ghost use Rattle.kx_pages.specs.Bytes.{page_of};
ghost use Rattle.kx_pages.specs.Spans.{in_spans};
ghost use Rattle.kx_pages.specs.Limits.{segment_page_limit};
ghost use Rattle.segments.specs.Values.{is_destination, want, pages, need};
ghost use Rattle.segments.specs.inner.Values.{IsAsLong, IsReplaced, span_of, wanted};
ghost use Rattle.segments.specs.Rules.{bare_refusal, refusal};
ghost use Rattle.segments.specs.inner.Rules.{IsBare, Answers};

use crate::fault::{Kind, SegFault};
use crate::rules::{page_set, test_all, test_bare, total};
use crate::segment::Segment;
use kx_pages::{Page, PageSet, Span, Wish, pages_needed};
use std::alloc::Global;
use std::marker::Model;

/// One to sixteen segments of whole pages below 2^46, no two overlapping, none with more bytes than memory, and with at
/// most 65,536 pages together. Contracts see the list of the segments.
#[derive(Drop)]
pub struct Segments {
    list: Vec<Segment>,
    spans: PageSet,
}

impl Model for Segments {
    ghost use Rattle.std.specs.Prelude.{List};
    ghost use Rattle.segments.specs.Values.{SegmentValue};
    ghost use Rattle.segments.specs.inner.Sets.{HasPages};

    ghost Value = { List SegmentValue };

    ghost view = { λ s. s.list.items };

    ghost invariant = { λ s. HasPages s.list.items s.spans };
}

impl Segments {
    /// The segments of the list, tested by all rules over the machine's memory `ram`, or the first refusal. Nothing is
    /// refused for want of memory where a rule refuses.
    pub fn new(
        alloc: Global,
        list: Vec<Segment>,
        ram: &PageSet,
        kind: Kind,
    ) -> Result<Segments, SegFault>
        ensures { Answers list.items (refusal ram.now kind list.items) result }
    {
        test_all(&list, ram, kind)?;
        Segments::of_tested(alloc, list)
    }

    /// The same where nothing is known of memory: the rules but those on half of memory, the reserved area and System
    /// RAM.
    pub fn bare(alloc: Global, list: Vec<Segment>) -> Result<Segments, SegFault>
        ensures { Answers list.items (bare_refusal list.items) result }
    {
        test_bare(&list)?;
        Segments::of_tested(alloc, list)
    }

    fn of_tested(alloc: Global, list: Vec<Segment>) -> Result<Segments, SegFault>
        requires { IsBare list.items }
        ensures { MatchResult result (λ s. s ≡ list.items) (λ e. e ≡ SegFault.Memory) }
    {
        let spans = page_set(alloc, &list)?;
        Ok(Segments { list, spans })
    }

    /// How many segments there are, 1 to 16.
    pub fn count(&self) -> usize
        ensures value { result ≡ length self.now }
        ensures valid { IsBare self.now }
    {
        self.list.len()
    }

    /// Segment number `i`, from 0.
    pub fn segment(&self, i: usize) -> &Segment
        requires { i < length self.now }
        ensures { slice_get self.now i ≡ Some result.now }
    {
        &self.list[i]
    }

    /// The pages of segment number `i`, from 0: one run. This project's own.
    pub fn span(&self, i: usize) -> Span
        requires { i < length self.now }
        ensures { option_map span_of (slice_get self.now i) ≡ Some result }
    {
        self.list[i].span()
    }

    /// The segments, as the list that they were made of. This project's own.
    pub fn into_list(self) -> Vec<Segment>
        ensures value { result.items ≡ self }
        ensures valid { IsBare self }
    {
        self.list
    }

    /// How many pages there are, at most 65,536.
    pub fn pages(&self) -> u64
        ensures value { result ≡ length (pages self.now) }
        ensures small { result ≤ segment_page_limit }
    {
        total(&self.list)
    }

    /// The set of the pages: the destinations.
    pub fn spans(&self) -> &PageSet
        ensures pages { (q : ℕ) → in_spans result.now q ≡ is_destination self.now q }
        ensures valid { IsBare self.now }
    {
        &self.spans
    }

    /// How many pool pages a load takes.
    pub fn need(&self, wish: Wish) -> u64
        ensures { result ≡ need wish self.now }
    {
        pages_needed(wish, self.count(), self.pages())
    }

    /// The bytes that a page is to have before zeros. None exactly where it is no page of the segments.
    pub fn wanted(&self, p: Page) -> Option<&[u8]>
        ensures value { option_map (λ b. b.now) result ≡ wanted self.now p }
        ensures filled { option_map (λ b. page_of b.now) result ≡ want self.now p }
        ensures short { IfSome result (λ b. length b.now ≤ 4096) }
    {
        let number = p.number();
        for s in &self.list {
            if s.has(number) {
                return Some(s.page_bytes(number));
            }
        }
        None
    }

    /// The bytes of segment number `i` become these, as many as they were. All else stays.
    pub fn replace(&mut self, i: usize, bytes: &[u8])
        requires inside { i < length self.old }
        requires same_length { IsAsLong self.old i bytes.now }
        ensures { IsReplaced self.old self.new i bytes.now }
    {
        self.list[i].bytes.copy_from_slice(bytes);
    }
}
