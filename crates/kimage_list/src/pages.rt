//! What is written into memory, page by page and word by word.

ghost use Rattle.std.specs.Prelude.{◌≡◌, ℕ, ◌/◌, ◌%◌, ◌<◌, ◌≤◌, ◌^◌, length};
ghost use Rattle.kx_pages.specs.Bytes.{page_of};
ghost use Rattle.page_memory.specs.Contents.{at};
ghost use Rattle.page_memory.specs.inner.Contents.{IsHeld};
ghost use Rattle.page_memory.specs.Memory.{put};
ghost use Rattle.page_memory.specs.inner.Memory.{set_word};
ghost use Rattle.kx_pages.specs.Items.{code};
ghost use Rattle.kx_pages.specs.declared.item.Item.TheVariants.{Source, Link, Destination};
ghost use Rattle.kimage_list.specs.inner.Drafts.{CanMove, exchange};

use crate::taking::TakenPage;
use kx_pages::{Item, Page};
use page_memory::Memory;

/// Writes a word at this address.
pub(crate) fn write_word(memory: &mut Memory, place: u64, word: u64)
    requires inside { place < 2 ^ 46 }
    requires aligned { place % 8 ≡ 0 }
    requires held { IsHeld memory.old (place / 4096) }
    ensures value { at memory.new ≡ set_word (at memory.old) place word }
    ensures stay { (q : ℕ) → IsHeld memory.old q → IsHeld memory.new q }
    ensures only { (q : ℕ) → IsHeld memory.new q → IsHeld memory.old q }
{
    memory.set_word(place, word);
}

/// Fills a page with these bytes, then zeros.
pub(crate) fn fill(memory: &mut Memory, p: Page, bytes: &[u8])
    requires held { IsHeld memory.old p }
    requires fits { length bytes.now ≤ 4096 }
    ensures value { at memory.new ≡ put (at memory.old) p (page_of bytes.now) }
    ensures stay { (q : ℕ) → IsHeld memory.old q → IsHeld memory.new q }
    ensures only { (q : ℕ) → IsHeld memory.new q → IsHeld memory.old q }
{
    memory.set(p, bytes);
}

/// Copies the bytes of `from` to `page`, and writes at `place` the word that names `page` as their source.
pub(crate) fn move_source(memory: &mut Memory, page: Page, from: Page, place: u64)
    requires inside { place < 2 ^ 46 }
    requires aligned { place % 8 ≡ 0 }
    requires held { IsHeld memory.old page }
    requires list_held { IsHeld memory.old (place / 4096) }
    ensures value { at memory.new ≡ set_word (put (at memory.old) page (at memory.old from)) place
        (code (Source page)) }
    ensures stay { (q : ℕ) → IsHeld memory.old q → IsHeld memory.new q }
    ensures only { (q : ℕ) → IsHeld memory.new q → IsHeld memory.old q }
{
    memory.copy(page, from);
    write_word(memory, place, source_word(page));
}

/// The word of a source.
pub(crate) fn source_word(p: Page) -> u64
    ensures { result ≡ code (Source p) }
{
    Item::Source(p).word()
}

/// The word that leads on to a link page.
pub(crate) fn link_word(p: Page) -> u64
    ensures { result ≡ code (Link p) }
{
    Item::Link(p).word()
}

/// The word of a segment's start.
pub(crate) fn destination_word(p: Page) -> u64
    ensures { result ≡ code (Destination p) }
{
    Item::Destination(p).word()
}

/// Makes the exchange that freed the page: the loaded page gets its bytes from its old source, and its word in the list
/// names it as its own source. The bytes go first, while the old source still has them; whoever asked for the page fills
/// it after that.
pub(crate) fn settle(memory: &mut Memory, taken: &TakenPage)
    requires { CanMove taken.now.moved memory.old }
    ensures value { at memory.new ≡ exchange (at memory.old) taken.now.moved taken.now.page }
    ensures stay { (q : ℕ) → IsHeld memory.old q → IsHeld memory.new q }
    ensures only { (q : ℕ) → IsHeld memory.new q → IsHeld memory.old q }
{
    if let Some(moved) = &taken.moved {
        move_source(memory, moved.page, taken.page, moved.place);
    }
}
