//! How many pages of the pool a load takes.

ghost use Rattle.std.specs.Prelude.{◌≡◌, ◌<◌, ◌^◌};
ghost use Rattle.kx_pages.specs.Needs.{first_count, link_pages_for, need_of};

use crate::image::Wish;
use crate::item::LINK_PAGE_ENTRIES;

/// How many pages before the link pages a load takes: the control page, and with context preserved the swap page.
pub fn first_pages(wish: Wish) -> u64
    ensures { result ≡ first_count wish }
{
    match wish {
        Wish::Plain => 1,
        Wish::Kept => 2,
    }
}

/// How many link pages so many entries take.
pub fn link_pages_for(entries: u64) -> u64
    ensures { result ≡ link_pages_for entries }
{
    entries.div_ceil(LINK_PAGE_ENTRIES as u64)
}

/// How many pages of the pool a load of so many segments takes, which have so many pages together: a source for each
/// page, the link pages for an entry of each segment and each page, and those before the link pages.
pub fn pages_needed(wish: Wish, segments: usize, pages: u64) -> u64
    requires segments { segments < 2 ^ 32 }
    requires pages { pages < 2 ^ 34 }
    ensures { result ≡ need_of wish segments pages }
{
    pages + link_pages_for(segments as u64 + pages) + first_pages(wish)
}
