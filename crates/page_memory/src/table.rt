//! The table from pages to the places of their frames.
//!
//! An ordered map has the place of each page's frame. In front of it lies a row of shortcuts, entries of the map once more,
//! so that most look-ups walk no tree: a page's shortcut stands where the low bits of its number say, and the page that was
//! noted there last has it. What a shortcut says the map says too, and none must be there: for want of memory the row is
//! shorter, or there is none, and nothing is refused. No contract tells of it: a table is seen as its map.

ghost use Rattle.std.specs.Prelude.{◌≡◌, ◌+◌, length, set, Some, None, IsSome, IfSome, IfOk, OnOk, OnErr};
ghost use Rattle.std.specs.Ordering.{nat_cmp};
ghost use Rattle.std.specs.BTreeMap as tree;
ghost use Rattle.page_memory.specs.inner.Frames.{Differs};
ghost use Rattle.page_memory.specs.inner.Shortcuts.{AreInPlace, SayWhat, shortcut_place};

use kx_pages::Page;
use std::alloc::{AllocError, Global};
use std::collections::BTreeMap;

// A page and the place of its frame, where one is noted.
type Shortcut = Option<(Page, usize)>;

/// Where in the buffer the frame of each page begins.
#[derive(Drop)]
pub(crate) struct Table {
    places: BTreeMap<Page, usize>,
    shortcuts: Vec<Shortcut>,
    alloc: Global,
    ghost in_their_places: { AreInPlace shortcuts.items },
    ghost as_the_map: { SayWhat places shortcuts.items },
}

// Where in a row of so many shortcuts that of a page stands.
#[tactic(auto, unfolding(crate::specs::inner::Shortcuts::shortcut_place))]
fn place_in_row(count: usize, p: Page) -> usize
    ensures { result ≡ shortcut_place count p }
{
    p.number() as usize & count.saturating_sub(1)
}

// Notes the place of a page's frame; where there is no row, nothing.
fn note(row: &mut Vec<Shortcut>, p: Page, place: usize)
    ensures { row.new.items
        ≡ set row.old.items (shortcut_place (length row.old.items) p) (Some (p, place)) }
{
    let k = place_in_row(row.len(), p);
    if k < row.len() {
        row[k] = Some((p, place));
    }
}

// A row with room for as many pages as a map has.
fn row_of(alloc: Global, places: &BTreeMap<Page, usize>) -> Result<Vec<Shortcut>, AllocError>
    ensures in_their_places { IfOk result (λ row. AreInPlace row.items) }
    ensures as_the_map { IfOk result (λ row. SayWhat places.now row.items) }
{
    let entries = places.iter();
    let mut row = vec![in alloc; None; places.len().next_power_of_two()]?;
    for (p, place) in entries {
        note(&mut row, *p, *place);
    }
    Ok(row)
}

// Puts the place of a page's frame where the map has one.
fn change_entry(places: &mut BTreeMap<Page, usize>, p: Page, place: usize)
    requires { IsSome (tree.get nat_cmp places.old p) }
    ensures differs { Differs places.old places.new p place }
    ensures length { length places.new.entries ≡ length places.old.entries }
{
    match places.get_mut(&p) {
        Some(entry) => *entry = place,
        None => unreachable!(),
    }
}

impl Table {
    /// The table of an ordered map.
    pub(crate) fn new(alloc: Global, places: BTreeMap<Page, usize>) -> Table
        ensures { result.places ≡ places }
    {
        let shortcuts = match row_of(alloc, &places) {
            Ok(row) => row,
            Err(_) => Vec::new(alloc),
        };
        Table {
            places,
            shortcuts,
            alloc,
        }
    }

    /// The table as an ordered map.
    pub(crate) fn places(&self) -> &BTreeMap<Page, usize>
        ensures { result.now ≡ self.now.places }
    {
        &self.places
    }

    /// How many pages have frames.
    pub(crate) fn len(&self) -> usize
        ensures len { result ≡ length self.now.places.entries }
    {
        self.places.len()
    }

    /// Where the frame of a page begins.
    pub(crate) fn get(&self, p: Page) -> Option<usize>
        ensures value { result ≡ tree.get nat_cmp self.now.places p }
    {
        match self.shortcut(p) {
            Some(place) => Some(place),
            None => self.places.get(&p).copied(),
        }
    }

    // What a shortcut says of a page.
    fn shortcut(&self, p: Page) -> Option<usize>
        ensures { IfSome result (λ place. tree.get nat_cmp self.now.places p ≡ Some place) }
    {
        match self.shortcuts.get(place_in_row(self.shortcuts.len(), p)) {
            Some(Some((page, place))) if *page == p => Some(*place),
            _ => None,
        }
    }

    /// A page that has no frame gets one, which begins at this place. For want of memory the table stays as it was.
    pub(crate) fn insert(&mut self, p: Page, place: usize) -> Result<(), AllocError>
        requires { tree.get nat_cmp self.old.places p ≡ None }
        ensures differs { OnOk result (Differs self.old.places self.new.places p place) }
        ensures length { OnOk result
            (length self.new.places.entries ≡ length self.old.places.entries + 1) }
        ensures err { OnErr result (self.new.places.entries ≡ self.old.places.entries) }
    {
        self.places.insert(p, place)?;
        note(&mut self.shortcuts, p, place);
        self.lengthen();
        Ok(())
    }

    /// The frame of a page that has one begins at this place from now on.
    pub(crate) fn change(&mut self, p: Page, place: usize)
        requires { IsSome (tree.get nat_cmp self.old.places p) }
        ensures differs { Differs self.old.places self.new.places p place }
        ensures length { length self.new.places.entries ≡ length self.old.places.entries }
    {
        change_entry(&mut self.places, p, place);
        note(&mut self.shortcuts, p, place);
    }

    // Makes the row anew, longer, where it has fewer places than there are pages.
    fn lengthen(&mut self)
        ensures { self.new.places ≡ self.old.places }
    {
        if self.shortcuts.len() < self.places.len() {
            if let Ok(row) = row_of(self.alloc, &self.places) {
                self.shortcuts = row;
            }
        }
    }
}
