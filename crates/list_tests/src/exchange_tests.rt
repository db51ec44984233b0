//! The load that has most exchanges: each page of the segment is drawn when the page before it was loaded, and takes the
//! place of the source that this one had.

ghost use Rattle.std.specs.Prelude.{◌≡◌, ℕ, false, IfOk};
ghost use Rattle.page_pool.specs.Pages.{is_filed};

use kx_pages::{Page, Wish};
use list_checker::Pair;
use load_states::{Accepted, Filling, Loaded};
use page_memory::Memory;
use page_pool::Pool;
use segments::{Segment, Segments};
use std::alloc::Global;
use std::test::*;

/// The most pages that segments have, from this page on.
const PAGES: u64 = 65536;

const FIRST: u64 = 0x10_0000;

// Pages 0x10, 0x11 and 0x12, and then the pages of the segment but its last. Each link page has 511 words and a link, and the
// next one, from 0x20 on, is drawn when it is full; the first begins with the destination word and the first source.
fn free_pages(alloc: Global) -> Result<Vec<u64>, Fail> {
    let mut free = Vec::new(alloc);
    free.extend_from_slice(&[0x10, 0x11, 0x12])?;
    let mut words = 2u64;
    let mut link = 0x20u64;
    for k in 0..PAGES - 1 {
        if words == 511 {
            free.push(link)?;
            link = link.saturating_add(1);
            words = 0;
        }
        free.push(FIRST.saturating_add(k))?;
        words = words.saturating_add(1);
    }
    Ok(free)
}

// A pool of these pages.
fn pool_of(alloc: Global, numbers: &[u64]) -> Result<Pool, Fail>
    ensures { IfOk result (λ p. (q : ℕ) → is_filed p q ≡ false) }
{
    let mut pages = Vec::new(alloc);
    for number in numbers {
        pages.push(Page::new(*number).ok_or("a page")?)?;
    }
    if pages.len() > 262144 {
        return Err("at most 262,144 pages".into());
    }
    match Pool::new(alloc, pages) {
        Ok(pool) => Ok(pool),
        Err(_) => Err("a pool".into()),
    }
}

// A load of the zeros of all pages, over this pool.
fn load(alloc: Global, pool: Pool, segments: Segments) -> Result<Loaded, Fail>
    requires { (q : ℕ) → is_filed pool q ≡ false }
{
    match Filling::begin(alloc, Memory::empty(alloc), pool, segments, Wish::Plain) {
        Ok(filling) => Ok(filling.finish()),
        Err(_) => Err("a load".into()),
    }
}

// One segment of zeros, of so many bytes from this address on.
fn zeros(alloc: Global, mem: u64, memsz: u64) -> Result<Segments, Fail> {
    let bytes = Vec::new(alloc);
    match Segments::bare(alloc, vec![in alloc; Segment { bytes, mem, memsz }]?) {
        Ok(segments) => Ok(segments),
        Err(_) => Err("segments".into()),
    }
}

// The first pair that is another than it must be: the pages are destinations in their order, and each but the last is its own
// source at the end.
fn first_other(pairs: &[Pair]) -> Option<(u64, u64)> {
    for (page, pair) in (FIRST..FIRST + PAGES).zip(pairs) {
        let source = if page == FIRST + PAGES - 1 {
            0x12
        } else {
            page
        };
        let found = (pair.destination.number(), pair.source.number());
        if found != (page, source) {
            return Some(found);
        }
    }
    None
}

// All pages of the pool are drawn.
#[test]
fn each_page_but_the_last_becomes_its_own_source(rt: HostRuntime) -> Result<(), Fail> {
    let pool = pool_of(rt.alloc(), &free_pages(rt.alloc())?)?;
    let segments = zeros(rt.alloc(), FIRST * 4096, PAGES * 4096)?;
    let loaded = load(rt.alloc(), pool, segments)?;
    let image = loaded.image();
    assert_eq!(rt; (image.head, image.control.number()), (0x11002, 0x10));
    let Ok(Accepted::Plain(accepted)) = loaded.accept(rt.alloc()) else {
        return Err("an accepted list".into());
    };
    let told = accepted.accept_data();
    assert_eq!(rt;
        (told.words, told.links, told.pairs.len()),
        (65667, 129, 65536)
    );
    assert_eq!(rt; first_other(&told.pairs), None);
    Ok(())
}
