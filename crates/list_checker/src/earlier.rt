//! What came before a word.

ghost use Rattle.std.specs.Prelude.{◌≡◌, ℕ, ◌&&◌, ◌||◌, OnOk, Option, Some, is_some, not, false, ◌==◌};
ghost use Rattle.std.specs.Ordering.{nat_cmp};
ghost use Rattle.std.specs.BTreeSet.{contains, btree_set_len};
ghost use Rattle.std.specs.List.{find};
ghost use Rattle.segments.specs.Values.{pages};
ghost use Rattle.kx_pages.specs.Lists.{has};
ghost use Rattle.list_checker.specs.Faults as spec;
ghost use Rattle.list_checker.specs.Faults.{nothing_earlier};
ghost use Rattle.kx_pages.specs.Modes.{swap_page};
ghost use Rattle.list_checker.specs.inner.Checked.{Shows, Fits, is_among};

use crate::missing::first_outside;
use kx_pages::{Item, Mode, Page};
use segments::Segments;
use std::alloc::{AllocError, Global};
use std::collections::BTreeSet;

/// A source word's move: the source page's bytes go to the destination page.
#[derive(Clone, Copy)]
pub struct Pair {
    /// The page that gets the bytes.
    pub destination: Page,
    /// The page whose bytes they are.
    pub source: Page,
}

/// What is told of an accepted list: how many words its walk has, with head and done word, how many link pages, and its
/// pairs in order.
#[derive(Drop)]
pub struct Accept {
    /// How many words the walk has, head word and done word counted.
    pub words: u64,
    /// How many link pages the walk has.
    pub links: u64,
    /// A pair for each source word, in the walk's order.
    pub pairs: Vec<Pair>,
}

// What the tests ask of the words before: ordered sets beside the pairs, so that a word is judged in a few look-ups and not
// by a walk over all that came before it.
//
// The links and pairs so far, and the page that the next source word's bytes go to, once there was a destination word.
#[derive(Drop)]
pub(crate) struct Earlier {
    links: BTreeSet<Page>,
    destinations: BTreeSet<Page>,
    // Kept with context preserved alone, where no page may be met again: in plain mode no page counts as an earlier
    // source.
    sources: Option<BTreeSet<Page>>,
    pairs: Vec<Pair>,
    next: Option<u64>,
}

// Nothing is added where no sources are kept.
fn add_source_page(sources: &mut Option<BTreeSet<Page>>, p: Page) -> Result<(), AllocError>
    ensures kept { is_some sources.new ≡ is_some sources.old }
    ensures added { OnOk result ((q : ℕ) → is_among sources.new q ≡
        (is_some sources.old && (is_among sources.old q || p == q))) }
{
    if let Some(kept) = sources {
        kept.insert(p)?;
    }
    Ok(())
}

impl Earlier {
    pub(crate) fn new(alloc: Global, mode: Mode) -> Earlier
        ensures { Shows (swap_page mode) result nothing_earlier }
    {
        Earlier {
            links: BTreeSet::new(alloc),
            destinations: BTreeSet::new(alloc),
            sources: match mode {
                Mode::Plain => None,
                Mode::Kept { swap: _ } => Some(BTreeSet::new(alloc)),
            },
            pairs: Vec::new(alloc),
            next: None,
        }
    }

    pub(crate) fn is_link(&self, p: Page) -> bool
        ensures { result ≡ contains nat_cmp self.now.links p }
    {
        self.links.contains(&p)
    }

    pub(crate) fn is_destination(&self, p: Page) -> bool
        ensures { result ≡ contains nat_cmp self.now.destinations p }
    {
        self.destinations.contains(&p)
    }

    // An earlier pair's source, which no page counts as in plain mode.
    pub(crate) fn is_source(&self, p: Page) -> bool
        ensures { result ≡ is_among self.now.sources p }
    {
        match &self.sources {
            Some(sources) => sources.contains(&p),
            None => false,
        }
    }

    // The first page of the segments that is no destination.
    pub(crate) fn first_missing(&self, segments: &Segments) -> Option<Page>
        ensures { result ≡ find (λ p. not (contains nat_cmp self.now.destinations p))
            (pages segments.now) }
    {
        first_outside(segments, &self.destinations)
    }

    // The page that the next source word's bytes go to.
    pub(crate) fn next(&self) -> Option<u64>
        ensures { result ≡ self.now.next }
    {
        self.next
    }

    fn add_link(&mut self, p: Page) -> Result<(), AllocError>
        ensures { OnOk result ((swap : Option ℕ) (s : spec.Earlier) → Shows swap self.old s →
            has p s.links ≡ false → Shows swap self.new (spec.with_item s (Item.Link p))) }
    {
        self.links.insert(p)?;
        Ok(())
    }

    fn add_destination(&mut self, d: Page)
        ensures { (swap : Option ℕ) (s : spec.Earlier) → Shows swap self.old s →
            Shows swap self.new (spec.with_item s (Item.Destination d)) }
    {
        self.next = Some(d.number());
    }

    fn add_pair(&mut self, d: Page, p: Page) -> Result<(), AllocError>
        ensures { OnOk result ((swap : Option ℕ) (s : spec.Earlier) → Shows swap self.old s →
            s.next ≡ Some d → Shows swap self.new (spec.with_item s (Item.Source p))) }
    {
        self.destinations.insert(d)?;
        add_source_page(&mut self.sources, p)?;
        self.pairs.push(Pair {
            destination: d,
            source: p,
        })?;
        self.next = Some(d.number() + 1);
        Ok(())
    }

    fn add_source(&mut self, p: Page) -> Result<(), AllocError>
        ensures { OnOk result ((swap : Option ℕ) (s : spec.Earlier) → Shows swap self.old s →
            Fits s (Item.Source p) → Shows swap self.new (spec.with_item s (Item.Source p))) }
    {
        match self.next {
            None => Ok(()),
            Some(t) => match Page::new(t) {
                None => Ok(()),
                Some(d) => self.add_pair(d, p),
            },
        }
    }

    // Adds a word that fits what came before it.
    pub(crate) fn add(&mut self, item: &Item) -> Result<(), AllocError>
        ensures { OnOk result ((swap : Option ℕ) (s : spec.Earlier) → Shows swap self.old s →
            Fits s item.now → Shows swap self.new (spec.with_item s item.now)) }
    {
        match item {
            Item::Link(p) => self.add_link(*p),
            Item::Destination(d) => {
                self.add_destination(*d);
                Ok(())
            }
            Item::Source(p) => self.add_source(*p),
            Item::Done(_) => Ok(()),
        }
    }

    // The answer for a list of so many words.
    pub(crate) fn accept(self, words: u64) -> Accept
        ensures words { result.words ≡ words }
        ensures links { result.links ≡ btree_set_len self.links }
        ensures pairs { result.pairs ≡ self.pairs }
    {
        Accept {
            words,
            links: self.links.len() as u64,
            pairs: self.pairs,
        }
    }
}
