//! The memory of a sample.

ghost use Rattle.std.specs.Prelude.{◌≡◌, ℕ, ◌+◌, ◌%◌, ◌<◌, ◌≤◌, ◌^◌, IfOk};
ghost use Rattle.std.specs.List.{range_with_len};
ghost use Rattle.page_memory.specs.Contents.{at, zero_page};
ghost use Rattle.page_memory.specs.inner.Contents.{IsHeld};
ghost use Rattle.page_memory.specs.Memory.{put};
ghost use Rattle.sample_load.specs.Samples.{page_full_of, sample_memory};

use crate::{FIRST_PAGE, PAGE_COUNT};
use kx_pages::Page;
use page_memory::Memory;
use std::alloc::{AllocError, Global};

// So many pages from number `first` on.
fn pages_from(alloc: Global, first: u64, count: u64) -> Result<Vec<Page>, AllocError>
    requires { first + count ≤ 2 ^ 34 }
    ensures { IfOk result (λ v. v.items ≡ range_with_len first count) }
{
    let mut pages = Vec::new(alloc);
    pages.reserve_exact(count as usize)?;
    for i in 0..count {
        pages.push(Page::from_number(first + i))?;
    }
    Ok(pages)
}

// A memory that holds so many pages of zeros from number `first` on.
fn zeros_from(alloc: Global, first: u64, count: u64) -> Result<Memory, AllocError>
    requires { first + count ≤ 2 ^ 34 }
    ensures held { IfOk result (λ m. (q : ℕ) → first ≤ q → q < first + count → IsHeld m q) }
    ensures zeros { IfOk result (λ m. (q : ℕ) → at m q ≡ zero_page) }
{
    let pages = pages_from(alloc, first, count)?;
    let mut memory = Memory::empty(alloc);
    memory.hold_all(&pages)?;
    Ok(memory)
}

// Fills a page that is held with its byte.
fn fill_page(memory: &mut Memory, number: u64)
    requires page { number < 2 ^ 34 }
    requires held { IsHeld memory.old number }
    ensures value { (q : ℕ) → at memory.new q
        ≡ put (at memory.old) number (page_full_of (1 + number % 251)) q }
    ensures stay { (q : ℕ) → IsHeld memory.old q → IsHeld memory.new q }
{
    let bytes = [1 + (number % 251) as u8; 4096];
    memory.set(Page::from_number(number), &bytes);
}

/// The memory of each sample: its pages are held and full.
pub(crate) fn sample_memory(alloc: Global) -> Result<Memory, AllocError>
    ensures { IfOk result (λ m. at m ≡ sample_memory) }
{
    let mut memory = zeros_from(alloc, FIRST_PAGE, PAGE_COUNT)?;
    for number in FIRST_PAGE..FIRST_PAGE + PAGE_COUNT {
        fill_page(&mut memory, number);
    }
    Ok(memory)
}
