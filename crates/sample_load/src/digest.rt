//! The digest of a memory.

ghost use Rattle.std.specs.Prelude.{◌≡◌, ℕ, ◌+◌, ◌<◌, ◌≤◌, ◌^◌, List, ◌++◌};
ghost use Rattle.sha2.specs.Hashers.{Holds256};
ghost use Rattle.page_memory.specs.Contents.{at};
ghost use Rattle.sample_load.specs.Samples.{memory_digest, pages_of};

use crate::{FIRST_PAGE, PAGE_COUNT};
use kx_pages::Page;
use page_memory::Memory;
use sha2::{Digest, Sha256};

// Feeds what a page reads as.
fn feed_page(hasher: &mut Sha256, memory: &Memory, number: u64)
    requires { number < 2 ^ 34 }
    ensures { (m : List ℕ) → Holds256 hasher.old m
        → Holds256 hasher.new (m ++ at memory.now number) }
{
    hasher.update(memory.bytes(Page::from_number(number)));
}

// Feeds so many pages from number `first` on, one after the other.
fn feed_pages(hasher: &mut Sha256, memory: &Memory, first: u64, count: u64)
    requires { first + count ≤ 2 ^ 34 }
    ensures { (m : List ℕ) → Holds256 hasher.old m
        → Holds256 hasher.new (m ++ pages_of (at memory.now) first count) }
{
    for number in first..first + count {
        feed_page(hasher, memory, number);
    }
}

/// The SHA-256 of the pages 0x1000 to 0x4fff of a memory, in this order. It takes no memory.
pub fn digest_of(memory: &Memory) -> [u8; 32]
    ensures { result ≡ memory_digest (at memory.now) }
{
    let mut hasher = Sha256::new();
    feed_pages(&mut hasher, memory, FIRST_PAGE, PAGE_COUNT);
    hasher.finalize()
}
