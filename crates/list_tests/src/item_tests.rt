//! Words of a list: what they are read as, and at the limit of pages.

use kx_pages::{Item, Page, WordFault};
use std::test::Fail;

#[test]
fn words_are_read_and_made(rt: HostRuntime) -> Result<(), Fail> {
    let (two, last) = (Page::from_number(2), Page::from_number(0x3_ffff_ffff));
    let rows = [
        (0x2001, Ok(Item::Destination(two))),
        (0x2002, Ok(Item::Link(two))),
        (0x2004, Ok(Item::Done(2))),
        (0x2008, Ok(Item::Source(two))),
        (0x2009, Err(WordFault::Flags)),
        (0x2000, Err(WordFault::Flags)),
        // A page lies below the limit, and a done word names none.
        (0x3fff_ffff_f008, Ok(Item::Source(last))),
        (0x4000_0000_0008, Err(WordFault::PastLimit)),
        (0x4000_0000_0004, Ok(Item::Done(0x4_0000_0000))),
    ];
    for (word, wanted) in rows {
        assert_eq!(rt; Item::of_word(word), wanted, "{word:x}");
    }
    assert_eq!(rt; Item::Link(two).word(), 0x2002);
    Ok(())
}
