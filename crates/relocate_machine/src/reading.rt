//! Words that only read: they move no page, and the run goes on in the page that it reads.

ghost use Rattle.std.specs.Prelude.{◌≡◌, ◌+◌, ◌%◌, ◌<◌, ◌≤◌, ◌^◌, length, IfSome};
ghost use Rattle.page_memory.specs.Memory.{word};
ghost use Rattle.relocate_machine.specs.Machine.{kind_of, word_address};
ghost use Rattle.relocate_machine.specs.inner.Reading.{IsIn, IsRead, place_past};

use crate::word::{WordKind, address, first_bit};
use byteorder::{ByteOrder, LittleEndian};
use kx_pages::PAGE_SIZE;

/// Where a run stands: at which address it reads, and to which it moves.
#[derive(Clone, Copy)]
pub(crate) struct Place {
    pub(crate) cursor: u64,
    pub(crate) destination: u64,
}

/// How many words of a page were read, where the run stands then, and the word there, where it does not only read.
#[derive(Clone, Copy)]
pub(crate) struct PageReading {
    pub(crate) steps: u64,
    pub(crate) at: Place,
    pub(crate) word: Option<u64>,
}

// Most words of a list stand in one page behind another, and only read. The page is looked up once for all of them: until
// a word moves a page, memory is what it was, so what the page holds stays true. A word that moves or ends is left to the
// step itself, and so is a link to another page.
/// Reads the words of a page from a place in it, at most `most` of them, up to its end or to the first word that does
/// not only read.
pub(crate) fn read_page(page: &[u8], from: Place, most: u64) -> PageReading
    requires whole { length page.now ≡ 4096 }
    requires near { from.cursor < 2 ^ 46 }
    requires aligned { from.cursor % 8 ≡ 0 }
    requires to { from.destination % 4096 ≡ 0 }
    ensures steps { result.steps ≤ most }
    ensures read { IsRead page.now result.steps from result.at }
    ensures word { IfSome result.word (λ w. w ≡ word (λ q. page.now) result.at.cursor) }
    ensures inside { IfSome result.word (λ w. result.at.cursor < word_address from.cursor + 4096) }
    ensures place { IsIn from.cursor result.at }
{
    let start = address(from.cursor);
    let mut at = from;
    for steps in 0..most {
        if at.cursor == start + PAGE_SIZE {
            return PageReading {
                steps,
                at,
                word: None,
            };
        }
        let word = word_in(page, at.cursor);
        match past(at, word, start) {
            Some(next) => at = next,
            None => return PageReading {
                steps,
                at,
                word: Some(word),
            },
        }
    }
    PageReading {
        steps: most,
        at,
        word: None,
    }
}

// Where the run stands past a word of the page at this address. None where the word does not only read.
fn past(at: Place, word: u64, start: u64) -> Option<Place>
    requires { at.cursor < 2 ^ 46 }
    ensures { result ≡ place_past start at (kind_of word) (word_address word) }
{
    let to = address(word);
    match first_bit(word) {
        WordKind::Destination => Some(Place {
            cursor: at.cursor + 8,
            destination: to,
        }),
        WordKind::Link if to == start => Some(Place {
            cursor: to,
            destination: at.destination,
        }),
        WordKind::Nothing => Some(Place {
            cursor: at.cursor + 8,
            destination: at.destination,
        }),
        _ => None,
    }
}

// The word of a page for the cursor.
#[tactic(auto, unfolding(page_memory::specs::Memory::word))]
fn word_in(page: &[u8], cursor: u64) -> u64
    requires whole { length page.now ≡ 4096 }
    requires aligned { cursor % 8 ≡ 0 }
    ensures { result ≡ word (λ q. page.now) cursor }
{
    LittleEndian::read_u64(&page[(cursor % PAGE_SIZE) as usize..])
}
