//! The test of a purgatory's regions: whether memory holds what was digested.

ghost use Rattle.std.specs.Prelude.{◌≡◌, ℕ, ◌+◌, ◌-◌, ◌*◌, ◌^◌, ◌<◌, ◌≤◌, List, ◌++◌, false, slice_get, slice_set, Some};
ghost use Rattle.sha2.specs.Hashers.{Holds256};
ghost use Rattle.sha2.specs.Sha256.{sha256};
ghost use Rattle.page_memory.specs.Contents.{at};
ghost use Rattle.page_memory.specs.Addresses.{bytes_in};
ghost use Rattle.kx_pages.specs.Bytes.{Mem};
ghost use Rattle.segments.specs.Values.{SegmentValue};
ghost use Rattle.segments.specs.inner.Rules.{IsBare};
ghost use Rattle.purgatory_link.specs.Regions.{others, digest};
ghost use Rattle.purgatory_link.specs.inner.Tie.{HoldsDigested, HasRegions, HasWanted, HasPlaces, with_regions};
ghost use Rattle.purgatory_link.specs.RegionTest.{regions, regions_in, passes, is_wild, first_wild_region, verdict, test_table, test};

use crate::digests::digest_block;
use kx_fields::Block;
use kx_pages::ADDRESS_LIMIT;
use page_memory::Memory;
use sha2::{Digest, Sha256};

/// How many rows a table of regions has.
const ROWS: usize = 16;

/// The most bytes that all regions of a table have together: 2^28.
const REGIONS_LIMIT: u64 = 0x1000_0000;

/// What the test of regions found.
#[derive(Drop)]
pub enum RegionTest {
    /// The regions' bytes have the digest.
    Same,
    /// They have another one.
    Differs {
        /// Their digest.
        found: Block<32>,
        /// The digest that stands in memory.
        wanted: Block<32>,
    },
    /// A region passes 2^46, or the lengths up to its own pass 2^28; 16 where the table or the digest passes 2^46.
    Wild {
        /// The number of the region.
        region: usize,
    },
}

// So many bytes from an address on pass 2^46.
fn passes(start: u64, size: u64) -> bool
    ensures { result ≡ passes start size }
{
    u128::from(start) + u128::from(size) > u128::from(ADDRESS_LIMIT)
}

// The least region that passes 2^46, or with which the lengths so far pass 2^28.
fn first_wild(table: &Block<256>) -> Option<usize>
    ensures { result ≡ first_wild_region (regions table.now) }
{
    let mut sum = 0;
    for i in 0..ROWS {
        let start = table.get_u64(16 * i);
        let size = table.get_u64(16 * i + 8);
        if passes(start, size) {
            return Some(i);
        }
        sum += size;
        if sum > REGIONS_LIMIT {
            return Some(i);
        }
    }
    None
}

// Feeds so many bytes from an address on.
fn feed_region(hasher: &mut Sha256, memory: &Memory, start: u64, size: u64)
    requires { start + size ≤ 2 ^ 46 }
    ensures { (m : List ℕ) → Holds256 hasher.old m
        → Holds256 hasher.new (m ++ bytes_in (at memory.now) start size) }
{
    let end = start + size;
    let mut address = start;
    while address < end {
        let bytes = memory.piece(address, end);
        hasher.update(bytes);
        address += bytes.len() as u64;
    }
}

// Feeds the bytes of the table's regions, none of which is wild.
fn feed_regions(hasher: &mut Sha256, memory: &Memory, table: &Block<256>)
    requires { (i : ℕ) → i < 16 → is_wild (regions table.now) i ≡ false }
    ensures { (m : List ℕ) → Holds256 hasher.old m
        → Holds256 hasher.new (m ++ regions_in (at memory.now) (regions table.now)) }
{
    for i in 0..ROWS {
        let start = table.get_u64(16 * i);
        let size = table.get_u64(16 * i + 8);
        feed_region(hasher, memory, start, size);
    }
}

// The digest of the bytes of the table's regions.
fn digest_in(memory: &Memory, table: &Block<256>) -> Block<32>
    requires { (i : ℕ) → i < 16 → is_wild (regions table.now) i ≡ false }
    ensures { result ≡ sha256 (regions_in (at memory.now) (regions table.now)) }
{
    let mut hasher = Sha256::new();
    feed_regions(&mut hasher, memory, table);
    digest_block(hasher)
}

// Whether both digests are the same.
fn compared(found: Block<32>, wanted: Block<32>) -> RegionTest
    ensures { result ≡ verdict found wanted }
{
    if found.bytes() == wanted.bytes() {
        RegionTest::Same
    } else {
        RegionTest::Differs { found, wanted }
    }
}

// Tests the table's regions.
fn test_table(memory: &Memory, table: &Block<256>, wanted: Block<32>) -> RegionTest
    ensures { result ≡ test_table (at memory.now) table.now wanted }
{
    match first_wild(table) {
        Some(region) => RegionTest::Wild { region },
        None => compared(digest_in(memory, table), wanted),
    }
}

/// Whether the bytes of the regions, whose table stands at one address, have the digest that stands at the other.
pub fn test_regions(memory: &Memory, regions: u64, digest: u64) -> RegionTest
    ensures { result ≡ test (at memory.now) regions digest }
{
    if passes(regions, 256) || passes(digest, 32) {
        return RegionTest::Wild { region: ROWS };
    }
    let table = memory.block(regions);
    let wanted = memory.block(digest);
    test_table(memory, &table, wanted)
}

/// What was digested is found: where memory holds at each page of the segments but the purgatory what is wanted of it,
/// and their table and digest stand at two addresses, the test of these is `Same`. No limit on the lengths must be
/// asked for: segments that no rule refuses keep it.
pub fn digested_regions_are_same()
    ensures { (M : Mem) (ss : List SegmentValue) (g r t : ℕ) → IsBare ss → HoldsDigested M ss g r t
        → test M r t ≡ RegionTest.Same }
{}

/// A load passes its own test: where memory has what is wanted of each page of the segments, and the table and the
/// digest of the others stand among the bytes of one of them, the test of these is `Same`. They stand there once they
/// are put there, since with other bytes in place of that segment's the others and their digest stay.
pub fn loaded_regions_are_same()
    ensures same { (M : Mem) (ss : List SegmentValue) (g r t : ℕ) (s : SegmentValue) → IsBare ss
        → HasRegions ss g s r t → HasWanted M ss → test M r t ≡ RegionTest.Same }
    ensures others { (ss : List SegmentValue) (g : ℕ) (s : SegmentValue)
        → others (slice_set ss g s) g ≡ others ss g }
    ensures digest { (ss : List SegmentValue) (g : ℕ) (s : SegmentValue) (bytes : List ℕ)
        → IsBare ss → slice_get ss g ≡ Some s
        → digest (slice_set ss g (record s { bytes = bytes })) g ≡ digest ss g }
    ensures put { (ss : List SegmentValue) (g r t : ℕ) (s : SegmentValue) → IsBare ss
        → slice_get ss g ≡ Some s → HasPlaces s r t
        → let q = with_regions ss g s r t in HasRegions (slice_set ss g q) g q r t }
{}
