//! Why a word is refused.

ghost use Rattle.std.specs.Prelude.{◌≡◌, ℕ, ◌+◌, ◌*◌, ◌%◌, ◌<◌, Option, Some, None, true, false, ◌||◌, ◌&&◌, ◌==◌};
ghost use Rattle.page_memory.specs.Contents.{at};
ghost use Rattle.segments.specs.Values.{want};
ghost use Rattle.segments.specs.inner.Rules.{IsBare};
ghost use Rattle.kx_pages.specs.Lists.{has, destinations, sources};
ghost use Rattle.list_checker.specs.Faults as spec;
ghost use Rattle.kx_pages.specs.Modes.{swap_page};
ghost use Rattle.list_checker.specs.Faults.{first_of, is_swap, is_wanted, are_wanted};
ghost use Rattle.list_checker.specs.inner.Items.{IsBelow};
ghost use Rattle.list_checker.specs.inner.Checked.{Shows, why_refused, reasons_of_pair, reasons_of_link, reasons_of_place, reasons_of_done, reasons_of_source, IsJudged, Leads, IsPlace};

use crate::earlier::Earlier;
use crate::fault::Why;
use kx_pages::{Image, Item, Mode, Page};
use page_memory::Memory;
use segments::Segments;

// The first reason whose test holds.
fn first(reasons: &[(bool, Why)]) -> Option<Why>
    ensures { result ≡ first_of reasons.now }
{
    for (holds, why) in reasons {
        if *holds {
            return Some(*why);
        }
    }
    None
}

fn is_kept(image: &Image) -> bool
    ensures { result ≡ spec.is_kept (swap_page image.now.mode) }
{
    match image.mode {
        Mode::Plain => false,
        Mode::Kept { swap: _ } => true,
    }
}

fn is_swap(image: &Image, p: Page) -> bool
    ensures { result ≡ is_swap (swap_page image.now.mode) p }
{
    match image.mode {
        Mode::Plain => false,
        Mode::Kept { swap } => p == swap,
    }
}

// At the head alone: the swap page is the control page.
fn swap_meets_control(image: &Image, place: Option<u64>) -> bool
    ensures { result ≡ spec.swap_meets_control image.now.control (swap_page image.now.mode) place }
{
    place.is_none() && is_swap(image, image.control)
}

pub(crate) fn has_its_bytes(memory: &Memory, segments: &Segments, d: Page, p: Page) -> bool
    ensures { result ≡ are_wanted (want segments.now d) (at memory.now p) }
{
    match segments.wanted(d) {
        Some(bytes) => memory.equals(p, bytes),
        None => false,
    }
}

// A link page is an earlier pair's page.
fn link_is_spoiled(earlier: &Earlier, p: Page) -> bool
    ensures { (swap : Option ℕ) (s : spec.Earlier) → Shows swap earlier.now s →
        result ≡ (has p (destinations s.pairs) || (spec.is_kept swap && has p (sources s.pairs))) }
{
    earlier.is_destination(p) || earlier.is_source(p)
}

// A pair's page is a link page.
fn pair_spoils_link(image: &Image, earlier: &Earlier, d: Page, p: Page) -> bool
    ensures { (s : spec.Earlier) → Shows (swap_page image.now.mode) earlier.now s →
        result ≡ (has d s.links || (spec.is_kept (swap_page image.now.mode) && has p s.links)) }
{
    earlier.is_link(d) || is_kept(image) && earlier.is_link(p)
}

// A pair's page is an earlier pair's source.
fn pairs_meet(earlier: &Earlier, d: Page, p: Page) -> bool
    ensures { (swap : Option ℕ) (s : spec.Earlier) → Shows swap earlier.now s →
        result ≡ (spec.is_kept swap && (has d (sources s.pairs) || has p (sources s.pairs))) }
{
    earlier.is_source(d) || earlier.is_source(p)
}

fn is_control(image: &Image, p: Page) -> bool
    ensures { result ≡ (p == image.now.control) }
{
    p == image.control
}

fn pair_touches_control(image: &Image, d: Page, p: Page) -> bool
    ensures { result ≡ (d == image.now.control || p == image.now.control) }
{
    d == image.control || p == image.control
}

fn pair_touches_swap(image: &Image, d: Page, p: Page) -> bool
    ensures { result ≡ (is_swap (swap_page image.now.mode) d || is_swap
        (swap_page image.now.mode) p) }
{
    is_swap(image, d) || is_swap(image, p)
}

fn link_touches_swap(image: &Image, place: Option<u64>, p: Page) -> bool
    ensures { result ≡ (is_swap
        (swap_page image.now.mode) p || spec.swap_meets_control image.now.control
        (swap_page image.now.mode) place) }
{
    is_swap(image, p) || swap_meets_control(image, place)
}

fn is_wanted(segments: &Segments, d: Page) -> bool
    ensures { result ≡ is_wanted (want segments.now d) }
{
    segments.wanted(d).is_some()
}

// Why a pair is refused. The order is that of the numbers, and a later test may rest on an earlier one: that a destination
// is wanted is known before its bytes are compared. In plain mode no page counts as an earlier source, and a source may
// be read twice; with context preserved a move writes its source too, so that sources are as destinations.
fn pair_reason(
    memory: &Memory,
    image: &Image,
    segments: &Segments,
    earlier: &Earlier,
    d: Page,
    p: Page,
) -> Option<Why>
    ensures { (s : spec.Earlier) → Shows (swap_page image.now.mode) earlier.now s →
        result ≡ first_of (reasons_of_pair memory.now segments.now image.now s d p) }
{
    first(&[
        (!is_wanted(segments, d), Why::NotWanted),
        (earlier.is_destination(d), Why::TwiceWritten),
        (earlier.is_destination(p), Why::SourceSpoiled),
        (pair_spoils_link(image, earlier, d, p), Why::LinkSpoiled),
        (pair_touches_control(image, d, p), Why::ControlTouched),
        (pairs_meet(earlier, d, p), Why::PairsMeet),
        (pair_touches_swap(image, d, p), Why::SwapTouched),
        (!has_its_bytes(memory, segments, d, p), Why::WrongBytes),
    ])
}

// Why a link to a page is refused. First of all where the list leads back to a page of its own: it would be read for ever.
fn link_reason(image: &Image, earlier: &Earlier, place: Option<u64>, p: Page) -> Option<Why>
    ensures { (s : spec.Earlier) → Shows (swap_page image.now.mode) earlier.now s →
        result ≡ first_of (reasons_of_link image.now place s p) }
{
    first(&[
        (earlier.is_link(p), Why::LinkAgain),
        (link_is_spoiled(earlier, p), Why::LinkSpoiled),
        (is_control(image, p), Why::ControlTouched),
        (link_touches_swap(image, place, p), Why::SwapTouched),
    ])
}

// Why a destination or source word is refused for its place. The cursor goes on by 8 from it: from the last slot of a page
// it would leave the page, for one that the list never named.
pub(crate) fn place_reason(place: Option<u64>) -> Option<Why>
    ensures { result ≡ first_of (reasons_of_place place) }
{
    match place {
        None => Some(Why::HeadKind),
        Some(a) => if a % 4096 >= 4088 {
            Some(Why::RunsOff)
        } else {
            None
        },
    }
}

// Why a done word is refused.
fn done_reason(
    image: &Image,
    segments: &Segments,
    earlier: &Earlier,
    place: Option<u64>,
) -> Option<Why>
    ensures { (s : spec.Earlier) → Shows (swap_page image.now.mode) earlier.now s →
        result ≡ first_of (reasons_of_done segments.now image.now place s) }
{
    if swap_meets_control(image, place) {
        return Some(Why::SwapTouched);
    }
    match earlier.first_missing(segments) {
        Some(page) => Some(Why::Missing { page }),
        None => None,
    }
}

// No page of the segments has so great a number.
fn past_the_pages(segments: &Segments) -> Option<Why>
    ensures value { result ≡ Some Why.NotWanted }
    ensures valid { IsBare segments.now }
{
    // for its clause: what every value of the type keeps
    let _known = segments.count();
    Some(Why::NotWanted)
}

// Why a source word with this page is refused, once its place is right.
fn source_reason(
    memory: &Memory,
    image: &Image,
    segments: &Segments,
    earlier: &Earlier,
    p: Page,
) -> Option<Why>
    ensures { (s : spec.Earlier) → Shows (swap_page image.now.mode) earlier.now s →
        result ≡ first_of (reasons_of_source memory.now segments.now image.now s p) }
{
    match earlier.next() {
        None => Some(Why::NoDestination),
        Some(t) => match Page::new(t) {
            None => past_the_pages(segments),
            Some(d) => pair_reason(memory, image, segments, earlier, d, p),
        },
    }
}

/// Why an item is refused, if it is.
pub(crate) fn refusal(
    memory: &Memory,
    image: &Image,
    segments: &Segments,
    earlier: &Earlier,
    place: Option<u64>,
    item: &Item,
) -> Option<Why>
    ensures { (s : spec.Earlier) →
        Shows (swap_page image.now.mode) earlier.now s → IsBelow item.now →
        result ≡ why_refused memory.now segments.now image.now place s (Some item.now) }
{
    match item {
        Item::Done(_) => done_reason(image, segments, earlier, place),
        Item::Link(p) => link_reason(image, earlier, place, *p),
        Item::Destination(_) => place_reason(place),
        Item::Source(p) => match place_reason(place) {
            Some(why) => Some(why),
            None => source_reason(memory, image, segments, earlier, *p),
        },
    }
}

/// The item that a word is, or why the word is refused.
pub(crate) fn judge(
    memory: &Memory,
    image: &Image,
    segments: &Segments,
    earlier: &Earlier,
    place: Option<u64>,
    w: u64,
) -> Result<Item, Why>
    ensures exact { (s : spec.Earlier) → Shows (swap_page image.now.mode) earlier.now s →
        IsJudged memory.now segments.now image.now place s w result }
    ensures valid { IsBare segments.now }
{
    // for its clause: what every value of the type keeps
    let _known = segments.count();
    let item = Item::of_word(w)?;
    match refusal(memory, image, segments, earlier, place, &item) {
        None => Ok(item),
        Some(why) => Err(why),
    }
}

/// Where the word after an item stands.
pub(crate) fn following(place: Option<u64>, item: &Item) -> u64
    requires { Leads place item.now }
    ensures next { result ≡ spec.following place item.now }
    ensures place { IsPlace result }
{
    match item {
        Item::Link(p) => p.address(),
        _ => match place {
            None => 0,
            Some(a) => a + 8,
        },
    }
}
