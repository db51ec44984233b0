//! What a purgatory is to find: the table of the segments' regions, and the digest of what is wanted of their pages.

ghost use Rattle.std.specs.Prelude.{◌≡◌, ℕ, ◌+◌, ◌-◌, ◌*◌, ◌^◌, ◌<◌, ◌≤◌, List, [], ◌∷◌, ◌++◌, length, take, drop};
ghost use Rattle.std.specs.List.{range_with_len};
ghost use Rattle.sha2.specs.Hashers.{Holds256};
ghost use Rattle.sha2.specs.Sha256.{sha256};
ghost use Rattle.kx_pages.specs.Bytes.{page_of};
ghost use Rattle.segments.specs.Values.{SegmentValue, want, pages};
ghost use Rattle.segments.specs.inner.Rules.{IsBare};
ghost use Rattle.purgatory_link.specs.Regions.{others, wanted_bytes, digest, region_table};

use kx_fields::Block;
use kx_pages::{PAGE_SIZE, Page, ZERO_PAGE};
use segments::{Segment, Segments};
use sha2::{Digest, Sha256};

// Puts the segment's row behind the `k` rows of a table.
fn put_region(table: &mut Block<256>, k: usize, segment: &Segment)
    requires { k < 16 }
    ensures { (ss : List SegmentValue) → length ss ≡ k → table.old ≡ region_table ss
        → table.new ≡ region_table (ss ++ segment.now ∷ []) }
{
    table.put_u64(16 * k, segment.mem);
    table.put_u64(16 * k + 8, segment.memsz);
}

// Puts the rows of segments `from` to `to` behind the `k` rows of a table.
fn put_regions(table: &mut Block<256>, k: usize, segments: &Segments, from: usize, to: usize)
    requires order { from ≤ to }
    requires inside { to ≤ length segments.now }
    requires room { k + (to - from) ≤ 16 }
    ensures { (ss : List SegmentValue) → length ss ≡ k → table.old ≡ region_table ss
        → table.new ≡ region_table (ss ++ take (to - from) (drop from segments.now)) }
{
    for i in from..to {
        put_region(table, k + (i - from), segments.segment(i));
    }
}

/// The table of regions: addresses and lengths of all segments but the purgatory, in order, then zeros.
pub fn regions_of(segments: &Segments, purgatory: usize) -> Block<256>
    requires { purgatory < length segments.now }
    ensures { result ≡ region_table (others segments.now purgatory) }
{
    let count = segments.count();
    let mut table = Block::zeros();
    put_regions(&mut table, 0, segments, 0, purgatory);
    put_regions(&mut table, purgatory, segments, purgatory + 1, count);
    table
}

// Feeds the bytes of a page, then zeros up to its end.
fn feed_page(hasher: &mut Sha256, bytes: &[u8])
    requires { length bytes.now ≤ 4096 }
    ensures { (m : List ℕ) → Holds256 hasher.old m → Holds256 hasher.new (m ++ page_of bytes.now) }
{
    hasher.update(bytes);
    let (zeros, _) = ZERO_PAGE.split_at(4096 - bytes.len());
    hasher.update(zeros);
}

// Feeds what is wanted of a page.
fn feed_wanted(hasher: &mut Sha256, segments: &Segments, number: u64)
    requires { number < 2 ^ 34 }
    ensures { (m : List ℕ) → Holds256 hasher.old m
        → Holds256 hasher.new (m ++ wanted_bytes (want segments.now) (number ∷ [])) }
{
    match segments.wanted(Page::from_number(number)) {
        Some(bytes) => feed_page(hasher, bytes),
        None => (),
    }
}

// Feeds what is wanted of so many pages.
fn feed_pages(hasher: &mut Sha256, segments: &Segments, first: u64, count: u64)
    requires { first + count ≤ 2 ^ 34 }
    ensures { (m : List ℕ) → Holds256 hasher.old m
        → Holds256 hasher.new (m ++ wanted_bytes (want segments.now) (range_with_len first count)) }
{
    for number in first..first + count {
        feed_wanted(hasher, segments, number);
    }
}

// Feeds what is wanted of the pages of segments `from` to `to`.
fn feed_segments(hasher: &mut Sha256, segments: &Segments, from: usize, to: usize)
    requires valid { IsBare segments.now }
    requires order { from ≤ to }
    requires inside { to ≤ length segments.now }
    ensures { (m : List ℕ) → Holds256 hasher.old m
        → Holds256 hasher.new (m ++ wanted_bytes (want segments.now)
        (pages (take (to - from) (drop from segments.now)))) }
{
    for i in from..to {
        let segment = segments.segment(i);
        feed_pages(
            hasher,
            segments,
            segment.mem / PAGE_SIZE,
            segment.memsz / PAGE_SIZE,
        );
    }
}

// The digest of what was fed.
pub(crate) fn digest_block(hasher: Sha256) -> Block<32>
    ensures { (m : List ℕ) → Holds256 hasher m → result ≡ sha256 m }
{
    let digest = hasher.finalize();
    let mut block = Block::zeros();
    block.put_bytes(0, &digest);
    block
}

/// The digest: SHA-256 of what is wanted of every page of all segments but the purgatory, in order.
pub fn digest_of(segments: &Segments, purgatory: usize) -> Block<32>
    requires { purgatory < length segments.now }
    ensures { result ≡ digest segments.now purgatory }
{
    let count = segments.count();
    let mut hasher = Sha256::new();
    feed_segments(&mut hasher, segments, 0, purgatory);
    feed_segments(&mut hasher, segments, purgatory + 1, count);
    digest_block(hasher)
}
