//! What a caller of a pool does: pages are filed, and a limit is raised. The text of a pool and its order are shown by
//! crates/scenes/data/memories.scenes.

use kx_pages::{ADDRESS_LIMIT, Page};
use page_pool::Pool;
use std::alloc::Global;
use std::test::*;

/// The pool of this text with this limit.
fn limited(alloc: Global, text: &[u8], limit: u64) -> Option<Pool> {
    match Pool::read(alloc, text) {
        Ok(pool) if limit.is_multiple_of(0x1000) && limit <= ADDRESS_LIMIT => Some(pool.below(
            limit,
        )),
        _ => None,
    }
}

/// Whether the next draws give these pages.
fn draws(pool: &mut Pool, pages: &[u64]) -> bool {
    let mut same = true;
    for page in pages {
        same = same && pool.draw().map(|p| p.number()) == Some(*page);
    }
    same
}

#[test]
fn files_and_takes_a_drawn_page(rt: HostRuntime) -> Result<(), Fail> {
    let mut pool = Pool::read(rt.alloc(), b"10")?;
    let page = Page::new(0x10).ok_or("a page")?;
    assert!(rt; pool.take_filed(page).is_none());
    if let Some(p) = pool.draw() {
        pool.file(p);
    }
    assert!(rt; pool.draw().is_none());
    assert_eq!(rt; pool.take_filed(page), Some(page));
    assert!(rt; pool.take_filed(page).is_none());
    Ok(())
}

#[test]
fn gives_the_passed_pages_once_the_limit_is_raised(rt: HostRuntime) -> Result<(), Fail> {
    let mut pool = limited(rt.alloc(), b"10\n200\n11\n300\n12", 0x10_0000).ok_or("a pool")?;
    assert!(rt; draws(&mut pool, &[0x10, 0x11]));
    let mut pool = pool.below(0x20_1000);
    assert_eq!(rt; (pool.left(), pool.unusable()), (2, 1));
    assert!(rt; draws(&mut pool, &[0x200]));
    let mut pool = pool.below(ADDRESS_LIMIT);
    assert_eq!(rt; pool.unusable(), 0);
    assert!(rt; draws(&mut pool, &[0x300, 0x12]));
    assert!(rt; pool.draw().is_none());
    Ok(())
}
