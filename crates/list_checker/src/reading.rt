//! Reading a list to its end, whatever it is for.

ghost use Rattle.std.specs.Prelude.{◌≡◌, ◌+◌, ◌<◌, IfOk, OnOk, Some, [], ◌∷◌};
ghost use Rattle.page_memory.specs.Contents.{at};
ghost use Rattle.list_checker.specs.Faults as spec;
ghost use Rattle.kx_pages.specs.Lists.{has};
ghost use Rattle.list_checker.specs.Faults.{why_by, walk_reasons, first_of};
ghost use Rattle.list_checker.specs.Reading.{IsWalk};
ghost use Rattle.list_checker.specs.inner.Items.{IsBelow};
ghost use Rattle.list_checker.specs.inner.Reading.{ShowsLinks, IsFollowed, FitsLinks};

use crate::fault::{ListFault, Why};
use crate::reasons::{following, place_reason};
use crate::walked::Walk;
use kx_pages::{Item, Page};
use page_memory::Memory;
use std::alloc::{AllocError, Global};
use std::collections::BTreeSet;

// Why a link to a page cannot be followed.
fn met_again(links: &BTreeSet<Page>, p: Page) -> Option<Why>
    ensures { (s : spec.Earlier) → ShowsLinks links.now s →
        result ≡ first_of ((has p s.links, Why.LinkAgain) ∷ []) }
{
    if links.contains(&p) {
        Some(Why::LinkAgain)
    } else {
        None
    }
}

// Why a word cannot be followed.
fn obstacle(links: &BTreeSet<Page>, place: Option<u64>, item: &Item) -> Option<Why>
    ensures { (s : spec.Earlier) → ShowsLinks links.now s → IsBelow item.now →
        result ≡ why_by walk_reasons place s (Some item.now) }
{
    match item {
        Item::Done(_) => None,
        Item::Link(p) => met_again(links, *p),
        Item::Destination(_) => place_reason(place),
        Item::Source(_) => place_reason(place),
    }
}

fn follow(links: &BTreeSet<Page>, place: Option<u64>, w: u64) -> Result<Item, Why>
    ensures { (s : spec.Earlier) → ShowsLinks links.now s → IsFollowed place s w result }
{
    let item = Item::of_word(w)?;
    match obstacle(links, place, &item) {
        None => Ok(item),
        Some(why) => Err(why),
    }
}

fn insert_link(links: &mut BTreeSet<Page>, p: Page) -> Result<(), AllocError>
    ensures { OnOk result ((s : spec.Earlier) → ShowsLinks links.old s →
        FitsLinks s (Item.Link p) → ShowsLinks links.new (spec.with_item s (Item.Link p))) }
{
    links.insert(p)?;
    Ok(())
}

// Adds the page of a link.
fn add_link(links: &mut BTreeSet<Page>, item: &Item) -> Result<(), AllocError>
    ensures { OnOk result ((s : spec.Earlier) → ShowsLinks links.old s → FitsLinks s item.now →
        ShowsLinks links.new (spec.with_item s item.now)) }
{
    match item {
        Item::Link(p) => insert_link(links, *p),
        _ => Ok(()),
    }
}

/// The words of the list with this head, whatever it is for: its walk, or the words up to and with the first one that
/// cannot be followed, for one of the reasons `Flags`, `PastLimit`, `HeadKind`, `LinkAgain` and `RunsOff`.
pub fn walk(alloc: Global, memory: &Memory, head: u64) -> Result<Walk, AllocError>
    ensures { IfOk result (λ r. IsWalk (at memory.now) head r.words.items r.fault) }
{
    let mut links: BTreeSet<Page> = BTreeSet::new(alloc);
    let mut words = Vec::new(alloc);
    let mut place: Option<u64> = None;
    let mut w = head;
    let mut word: u64 = 0;
    'words: loop {
        let found = follow(&links, place, w);
        words.push(w)?;
        let item = match found {
            Ok(item) => item,
            Err(why) => return Ok(Walk {
                words,
                fault: Some(ListFault { word, why }),
            }),
        };
        if let Item::Done(_) = item {
            return Ok(Walk { words, fault: None });
        }
        add_link(&mut links, &item)?;
        let next = following(place, &item);
        place = Some(next);
        w = memory.word(next);
        word += 1;
    }
}
