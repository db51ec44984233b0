//! What is made before a list is written.

ghost use Rattle.std.specs.Prelude.{◌≡◌, ℕ, ◌≤◌, ◌<◌, ◌⊎◌, length, take, OnOk, IfOk};
ghost use Rattle.std.specs.List.Sorted.{IsPermutation};
ghost use Rattle.page_memory.specs.Contents.{at};
ghost use Rattle.page_memory.specs.inner.Contents.{IsHeld};
ghost use Rattle.page_pool.specs.Pages.{usable_of};
ghost use Rattle.kx_pages.specs.Lists.{Has};
ghost use Rattle.kx_pages.specs.Spans.{AreApart};
ghost use Rattle.kimage_list.specs.inner.Beginning.{IsFresh, AreHeld};

use crate::table::Table;
use kx_pages::{Page, PageSet};
use page_memory::Memory;
use page_pool::Pool;
use std::alloc::{AllocError, Global};

/// All memory of a load is taken here, before the first page is written: so nothing after it can fail, and a load that
/// is refused has changed nothing that is read. It is the table of the wanted pages, and the first usable pages of the pool.
pub(crate) fn prepare(
    alloc: Global,
    memory: &mut Memory,
    pool: &Pool,
    wanted: &PageSet,
    need: u64,
) -> Result<Table, AllocError>
    requires { need ≤ length (usable_of pool.now) }
    ensures ready { IfOk result (λ table.
        IsFresh wanted.now table × AreApart 0 wanted.now
        × AreHeld need (usable_of pool.now) memory.new) }
    ensures same { (q : ℕ) → at memory.new q ≡ at memory.old q }
    ensures sets { memory.new.sets ≡ memory.old.sets }
    ensures stay { (q : ℕ) → IsHeld memory.old q → IsHeld memory.new q }
    ensures only { (q : ℕ) → IsHeld memory.new q
        → IsHeld memory.old q ⊎ Has q (take need (usable_of pool.now)) }
{
    hold_first(alloc, memory, pool, need)?;
    Table::new(alloc, wanted)
}

// The first n usable pages of the pool, in rising order.
fn first_in_order(alloc: Global, pool: &Pool, n: u64) -> Result<Vec<Page>, AllocError>
    requires { n ≤ length (usable_of pool.now) }
    ensures { IfOk result (λ pages. IsPermutation (take n (usable_of pool.now)) pages.items) }
{
    let mut pages = Vec::new(alloc);
    pages.reserve_exact(n as usize)?;
    for i in 0..n {
        pages.push(pool.page(i))?;
    }
    pages.sort_unstable();
    Ok(pages)
}

// Holds the first n usable pages of the pool, in rising order: so the frames of those that were not held lie in the order
// in which a memory file has them.
fn hold_first(alloc: Global, memory: &mut Memory, pool: &Pool, n: u64) -> Result<(), AllocError>
    requires { n ≤ length (usable_of pool.now) }
    ensures held { OnOk result (AreHeld n (usable_of pool.now) memory.new) }
    ensures same { (q : ℕ) → at memory.new q ≡ at memory.old q }
    ensures sets { memory.new.sets ≡ memory.old.sets }
    ensures stay { (q : ℕ) → IsHeld memory.old q → IsHeld memory.new q }
    ensures only { (q : ℕ) → IsHeld memory.new q
        → IsHeld memory.old q ⊎ Has q (take n (usable_of pool.now)) }
{
    let pages = first_in_order(alloc, pool, n)?;
    memory.hold_all(&pages)
}
