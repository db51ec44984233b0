//! The words of a list of page copies.

ghost use Rattle.std.specs.Prelude.{◌≡◌, Err, Ok, leb, ◌^◌, ◌/◌, if◌then◌else◌};
ghost use Rattle.kx_pages.specs.Items.{code, item_of};
ghost use Rattle.kx_pages.specs.inner.Items.{HasWord};

use crate::page::{PAGE_SIZE, Page};

/// The entries of a link page: its last word leads on to the next link page, or ends the list.
pub const LINK_PAGE_ENTRIES: usize = 511;

/// The done word of the lists that are written here: the flag alone.
pub const DONE_WORD: u64 = 4;

/// A word that has exactly one flag in its low twelve bits, and the page that it names: a word of the kernel's kexec
/// core with `IND_INDIRECTION`, `IND_DESTINATION`, `IND_SOURCE` or `IND_DONE`.
#[derive(Clone, Copy, Debug, PartialEq, Eq)]
pub enum Item {
    /// The list goes on in this page.
    Link(Page),
    /// The next source goes to this page.
    Destination(Page),
    /// The bytes of this page go to the present destination.
    Source(Page),
    /// The list ends. The number is that of the word's high bits, and means nothing.
    Done(u64),
}

/// Why a word is no item: this project's own reasons.
#[derive(Clone, Copy, Debug, PartialEq, Eq)]
pub enum WordFault {
    /// Its low twelve bits are not exactly one of the four flags.
    Flags,
    /// It is a link, destination or source word whose address is 2^46 or more.
    PastLimit,
}

// The page that a word names.
fn page_of(w: u64) -> Result<Page, WordFault>
    ensures { result ≡ (if leb (2 ^ 34) (w / 4096) then Err WordFault.PastLimit else Ok
        (w / 4096)) }
{
    match Page::new(w / PAGE_SIZE) {
        Some(page) => Ok(page),
        None => Err(WordFault::PastLimit),
    }
}

impl Item {
    /// The item that a word is, or why it is none.
    pub fn of_word(w: u64) -> Result<Item, WordFault>
        ensures { result ≡ item_of w }
    {
        match w % PAGE_SIZE {
            1 => Ok(Item::Destination(page_of(w)?)),
            2 => Ok(Item::Link(page_of(w)?)),
            4 => Ok(Item::Done(w / PAGE_SIZE)),
            8 => Ok(Item::Source(page_of(w)?)),
            _ => Err(WordFault::Flags),
        }
    }

    /// The word of an item: the page's address and the flag.
    pub fn word(self) -> u64
        requires { HasWord self }
        ensures { result ≡ code self }
    {
        match self {
            Item::Destination(page) => page.address() + 1,
            Item::Link(page) => page.address() + 2,
            Item::Done(number) => number * PAGE_SIZE + 4,
            Item::Source(page) => page.address() + 8,
        }
    }
}
