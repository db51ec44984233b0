//! One segment.

ghost use Rattle.std.specs.Prelude.{◌≡◌, ℕ, ◌+◌, ◌-◌, ◌*◌, ◌/◌, ◌^◌, ◌<◌, ◌≤◌, IsTrue, false, length, take};
ghost use Rattle.kx_pages.specs.Spans.{in_span};
ghost use Rattle.segments.specs.Values.{SegmentValue, stop, is_page_of_segment, page_count, bytes_from};
ghost use Rattle.segments.specs.inner.Values.{span_of};
ghost use Rattle.segments.specs.Rules.{is_bad_address, overlap_each_other, is_too_full, leaves};

use kx_pages::{ADDRESS_LIMIT, PAGE_SIZE, Span};
use std::marker::Model;

/// A segment of the new kernel, as in kexec_load(2): its bytes, the address that they go to, and how many bytes of
/// memory it takes from there on. What lies behind the bytes is filled with zeros.
#[derive(Drop)]
pub struct Segment {
    /// The bytes; in [`Segments`](crate::Segments) at most `memsz`.
    pub bytes: Vec<u8>,
    /// The address that the first byte goes to; in [`Segments`](crate::Segments) that of a page.
    pub mem: u64,
    /// How many bytes of memory it takes, from `mem` on; in [`Segments`](crate::Segments) whole pages, which end below
    /// 2^46.
    pub memsz: u64,
}

impl Model for Segment {
    ghost use Rattle.segments.specs.Values.{SegmentValue};

    ghost Value = { SegmentValue };

    ghost view = { λ s. record { bytes = s.bytes.items; mem = s.mem; memsz = s.memsz } };
}

impl Segment {
    // The address behind the segment.
    fn stop(&self) -> u128
        ensures { result ≡ stop self.now }
    {
        u128::from(self.mem) + u128::from(self.memsz)
    }

    // The number of its first page.
    pub(crate) fn first_page(&self) -> u64
        ensures value { result ≡ self.now.mem / 4096 }
        ensures small { result < 2 ^ 52 }
    {
        self.mem / PAGE_SIZE
    }

    // How many pages it has.
    pub(crate) fn page_count(&self) -> u64
        ensures value { result ≡ page_count self.now }
        ensures small { result < 2 ^ 52 }
    {
        self.memsz / PAGE_SIZE
    }

    // It does not begin and end at a page below the limit.
    pub(crate) fn has_bad_address(&self) -> bool
        ensures { result ≡ is_bad_address self.now }
    {
        !self.mem.is_multiple_of(PAGE_SIZE)
            || !self.stop().is_multiple_of(u128::from(PAGE_SIZE))
            || self.stop() >= u128::from(ADDRESS_LIMIT)
    }

    // The two overlap.
    pub(crate) fn overlaps(&self, earlier: &Segment) -> bool
        ensures { result ≡ overlap_each_other self.now earlier.now }
    {
        self.stop() > u128::from(earlier.mem) && u128::from(self.mem) < earlier.stop()
    }

    // It has more bytes than memory.
    pub(crate) fn is_too_full(&self) -> bool
        ensures { result ≡ is_too_full self.now }
    {
        self.bytes.len() as u64 > self.memsz
    }

    // It leaves the area.
    pub(crate) fn leaves(&self, area: Span) -> bool
        ensures { result ≡ leaves area self.now }
    {
        self.mem < area.first() * PAGE_SIZE
            || self.stop() > u128::from((area.first() + area.count()) * PAGE_SIZE)
    }

    // Its pages.
    pub(crate) fn span(&self) -> Span
        requires { is_bad_address self.now ≡ false }
        ensures value { result ≡ span_of self.now }
        ensures pages { (q : ℕ) → in_span result q ≡ is_page_of_segment self.now q }
    {
        Span::new(self.mem / PAGE_SIZE, self.memsz / PAGE_SIZE).unwrap()
    }

    // The page of this number is one of its pages.
    pub(crate) fn has(&self, number: u64) -> bool
        requires { number < 2 ^ 34 }
        ensures { result ≡ is_page_of_segment self.now number }
    {
        self.mem <= number * PAGE_SIZE && u128::from(number * PAGE_SIZE) < self.stop()
    }

    // The bytes of a page of this segment, before zeros.
    pub(crate) fn page_bytes(&self, number: u64) -> &[u8]
        requires page { number < 2 ^ 34 }
        requires inside { IsTrue (is_page_of_segment self.now number) }
        ensures value { result.now ≡ take 4096 (bytes_from self.now number) }
        ensures short { length result.now ≤ 4096 }
    {
        let at = (number * PAGE_SIZE - self.mem) as usize;
        if at >= self.bytes.len() {
            return &[];
        }
        let (_, rest) = self.bytes.split_at(at);
        if rest.len() < 4096 {
            return rest;
        }
        let (page, _) = rest.split_at(4096);
        page
    }
}
