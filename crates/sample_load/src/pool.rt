//! The pool of a sample.

ghost use Rattle.std.specs.Prelude.{◌≡◌, ℕ, ◌<◌, ◌≤◌, ◌^◌, false, IfOk};
ghost use Rattle.kimage_list.specs.Tracking.{whole_pool};
ghost use Rattle.page_pool.specs.Pages.{is_filed, usable_of};
ghost use Rattle.sample_load.specs.Samples.{pool_page, pool_pages, sample_pool};

use crate::{FIRST_PAGE, PAGE_COUNT};
use kx_pages::Page;
use page_pool::{Pool, PoolFault};
use std::alloc::{AllocError, Global};

/// How far one page of the pool lies behind the one before, counted round the pool. It is odd, and
/// the pool has 2^14 pages, so each of them is met once.
const STRIDE: u64 = 40503;

// Page k of the pool.
fn pool_page(k: u64) -> Page
    requires { k < 16384 }
    ensures { result ≡ pool_page k }
{
    Page::from_number(FIRST_PAGE + STRIDE * k % PAGE_COUNT)
}

// So many pages of the pool, in the order in which they are drawn.
fn pool_pages(alloc: Global, count: u64) -> Result<Vec<Page>, AllocError>
    requires { count ≤ 16384 }
    ensures { IfOk result (λ v. v.items ≡ pool_pages count) }
{
    let mut pages = Vec::new(alloc);
    pages.reserve_exact(count as usize)?;
    for k in 0..count {
        pages.push(pool_page(k))?;
    }
    Ok(pages)
}

// A pool of so many of these pages. None of them stands in it twice, and each is usable.
fn pool_of(alloc: Global, count: u64) -> Result<Pool, AllocError>
    requires { count ≤ 16384 }
    ensures pages { IfOk result (λ p. usable_of p ≡ pool_pages count) }
    ensures whole { IfOk result (λ p.
        whole_pool p ≡ (pool_pages count, pool_pages count, 2 ^ 46)) }
    ensures unfiled { IfOk result (λ p. (q : ℕ) → is_filed p q ≡ false) }
{
    let pages = pool_pages(alloc, count)?;
    match Pool::new(alloc, pages) {
        Ok(pool) => Ok(pool),
        Err(fault) => match fault {
            PoolFault::Memory => Err(AllocError),
            _ => unreachable!(),
        },
    }
}

/// The pool of each sample.
pub(crate) fn sample_pool(alloc: Global) -> Result<Pool, AllocError>
    ensures pages { IfOk result (λ p. usable_of p ≡ sample_pool) }
    ensures whole { IfOk result (λ p. whole_pool p ≡ (sample_pool, sample_pool, 2 ^ 46)) }
    ensures unfiled { IfOk result (λ p. (q : ℕ) → is_filed p q ≡ false) }
{
    pool_of(alloc, PAGE_COUNT)
}
