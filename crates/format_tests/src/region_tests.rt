//! Which of the regions that a purgatory tests is wild. That one is, and the digest of the others, is shown by
//! crates/scenes/data/regions.scenes.

use crate::bytes::put_page;
use page_memory::Memory;
use purgatory_link::{RegionTest, test_regions};
use std::alloc::Global;
use std::test::Fail;

/// The greatest address that a region may end at.
const LIMIT: u64 = 0x4000_0000_0000;

// A table with these regions, and rows of zeros behind them.
fn table(alloc: Global, regions: &[(u64, u64)]) -> Result<Vec<u8>, Fail> {
    let mut table = Vec::new(alloc);
    for (start, size) in regions {
        table.extend_from_slice(&start.to_le_bytes())?;
        table.extend_from_slice(&size.to_le_bytes())?;
    }
    table.resize(256, 0)?;
    Ok(table)
}

// A memory that holds such bytes in pages of these numbers.
fn memory_of(alloc: Global, pages: &[(u64, &[u8])]) -> Result<Memory, Fail> {
    let mut memory = Memory::empty(alloc);
    for (number, bytes) in pages {
        put_page(&mut memory, *number, bytes)?;
    }
    Ok(memory)
}

// The test of these regions against this digest.
fn answer(alloc: Global, regions: &[(u64, u64)], digest: &[u8]) -> Result<RegionTest, Fail> {
    let table = table(alloc, regions)?;
    let memory = memory_of(alloc, &[(1, &table), (2, digest)])?;
    Ok(test_regions(&memory, 0x1000, 0x2000))
}

// The number of the wild region, if one is wild.
fn wild(answer: &RegionTest) -> Option<usize> {
    match answer {
        RegionTest::Wild { region } => Some(*region),
        _ => None,
    }
}

/// Half of the most bytes that regions have.
const HALF: u64 = 0x800_0000;

/// Regions, and the wild one among them.
const WILD: [(&[(u64, u64)], usize); 7] = [
    (&[(LIMIT - 4096, 4097)], 0),
    (&[(0, 1), (u64::MAX, u64::MAX)], 1),
    (&[(LIMIT, 0), (LIMIT + 1, 0)], 1),
    // A sum of 2^28 is not wild, so that the third region is told.
    (&[(0x1000_0000, HALF), (0, HALF), (LIMIT, 1)], 2),
    (&[(0x1000_0000, HALF), (0, HALF), (0, 1)], 2),
    (&[(0x1000_0000, HALF), (0, HALF + 1)], 1),
    (&[(0, 2 * HALF + 1)], 0),
];

#[test]
fn the_first_wild_region_is_told(rt: HostRuntime) -> Result<(), Fail> {
    for (regions, wanted) in WILD {
        let answer = answer(rt.alloc(), regions, &[])?;
        assert_eq!(rt; wild(&answer), Some(wanted), "in {regions:?}");
    }
    Ok(())
}
