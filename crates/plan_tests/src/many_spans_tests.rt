//! Searches over many spans, which bench/holes.py also runs by their names, to see how their time grows.

use hole_search::{End, find};
use kx_pages::{ADDRESS_LIMIT, PAGE_SIZE, PageSet, Span};
use std::alloc::Global;
use std::test::Fail;

// How often each search is made.
const TIMES: u64 = 10;

// How far the spans of one set stand apart, in pages.
const STEP: u64 = 8;

// So many spans of this length, the first of them at this page.
fn spans(alloc: Global, first: u64, length: u64, count: u64) -> Result<PageSet, Fail> {
    let mut set = PageSet::new(alloc);
    for i in 0..count {
        let start = first.saturating_add(STEP.saturating_mul(i));
        set.add(Span::new(start, length).ok_or("a span")?)?;
    }
    Ok(set)
}

// RAM of 4 pages in each 8, the second of which is taken in all but the first and the last. So 3 pages fit in these two
// alone, and a search for one from the end of the other goes along all spans.
fn search_along(alloc: Global, count: u64) -> Result<(), Fail> {
    let ram = spans(alloc, 0, 4, count)?;
    let taken = spans(alloc, STEP + 1, 1, count.saturating_sub(2))?;
    let size = 3 * PAGE_SIZE;
    let last = count
        .saturating_sub(1)
        .saturating_mul(STEP)
        .saturating_mul(PAGE_SIZE);
    for _ in 0..TIMES {
        let least = find(
            &ram,
            &taken,
            size,
            PAGE_SIZE,
            2 * PAGE_SIZE,
            ADDRESS_LIMIT - 1,
            End::Least,
        );
        let greatest = find(
            &ram,
            &taken,
            size,
            PAGE_SIZE,
            0,
            last.saturating_sub(1),
            End::Greatest,
        );
        if least != Some(last) || greatest != Some(PAGE_SIZE) {
            return Err("another place was found".into());
        }
    }
    Ok(())
}

#[test]
fn along_50000_spans(rt: HostRuntime) -> Result<(), Fail> {
    search_along(rt.alloc(), 50_000)
}

#[test]
fn along_100000_spans(rt: HostRuntime) -> Result<(), Fail> {
    search_along(rt.alloc(), 100_000)
}
