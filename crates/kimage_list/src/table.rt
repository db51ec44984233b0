//! The table of the wanted pages.
//!
//! The wanted pages are a few runs. Each run has a row of slots, one for each of its pages, so a look-up finds the row by
//! halving and the slot by its index, and no tree is walked. All rows are made at once, before the first page is loaded.

ghost use Rattle.std.specs.Prelude.{◌≡◌, ◌≢◌, ℕ, ◌≤◌, ◌<◌, ◌-◌, ◌∷◌, [], Some, None, IsSome, IsTrue, IfOk, set};
ghost use Rattle.std.specs.List.Sorted.{IsPartitionPoint};
ghost use Rattle.kx_pages.specs.Spans.{AreApart};
ghost use Rattle.kimage_list.specs.inner.Tables.{slot, row_end, in_row, AreRising, fresh_row};
ghost use Rattle.kimage_list.specs.inner.Beginning.{IsFresh};

use kx_pages::{Page, PageSet, Span};
use std::alloc::{AllocError, Global};
use std::marker::Model;

/// Where a loaded page's bytes are, and the address of its word in the list.
#[derive(Clone, Copy)]
pub(crate) struct PageSource {
    pub(crate) source: Page,
    pub(crate) place: u64,
}

// The slots of a run of wanted pages, of which the first has number `first`: of each page where it is loaded from, once it
// is loaded. All the pages lie below 2^34.
#[derive(Drop)]
struct Row {
    first: u64,
    slots: Vec<Option<PageSource>>,
}

impl Model for Row {
    ghost use Rattle.std.specs.Prelude.{◌+◌, ◌≤◌, ◌^◌, length};
    ghost use Rattle.kimage_list.specs.inner.Tables.{SlotRow, row_code};

    ghost Value = { SlotRow };

    ghost coded = { row_code };

    ghost view = { λ r. record { first = r.first; slots = r.slots.items } };

    ghost invariant = { λ r. r.first + length r.slots.items ≤ 2 ^ 34 };
}

impl Row {
    // The row of a run of pages, none of them loaded.
    fn new(alloc: Global, span: Span) -> Result<Row, AllocError>
        ensures { IfOk result (λ row. row ≡ fresh_row span) }
    {
        let first = span.first();
        let slots = vec![in alloc; None; span.count() as usize]?;
        Ok(Row { first, slots })
    }

    // The number behind the last page.
    fn end(&self) -> u64
        ensures { result ≡ row_end self.now }
    {
        self.first + self.slots.len() as u64
    }

    // What the row has of a page: None where the page is not one of the row's.
    fn get(&self, p: Page) -> Option<Option<PageSource>>
        ensures { result ≡ slot (self.now ∷ []) p }
    {
        let place = p.number().checked_sub(self.first)?;
        self.slots.get(place as usize).copied()
    }

    // The row's page is now loaded so.
    fn set(&mut self, d: Page, loaded: PageSource)
        requires { IsTrue (in_row self.old d) }
        ensures first { self.new.first ≡ self.old.first }
        ensures slots { self.new.slots
            ≡ set self.old.slots (d - self.old.first) (Some loaded) }
    {
        let place = d.number() - self.first;
        self.slots[place as usize] = Some(loaded);
    }
}

// How many rows end before the page: row number so many is the one that may have it, as the rows rise.
fn row_of(rows: &[Row], p: Page) -> usize
    requires { AreRising 0 rows.now }
    ensures { IsPartitionPoint (λ r. row_end r ≤ p) (λ r. p < row_end r) rows.now result }
{
    let number = p.number();
    rows.partition_point(|row| row.end() <= number)
}

/// The wanted pages, and where each is loaded from. Contracts see what it has of each page, by `slot`.
///
/// The rows rise and no two have a page in common: so at most the first that ends behind a page has it.
#[derive(Drop)]
pub(crate) struct Table {
    rows: Vec<Row>,
}

impl Model for Table {
    ghost use Rattle.kimage_list.specs.inner.Tables.{Slots, slots_code, AreRising};

    ghost Value = { Slots };

    ghost coded = { slots_code };

    ghost view = { λ t. t.rows.items };

    ghost invariant = { λ t. AreRising 0 t.rows.items };
}

impl Table {
    /// A table of the wanted pages, none of them loaded.
    pub(crate) fn new(alloc: Global, wanted: &PageSet) -> Result<Table, AllocError>
        ensures { IfOk result (λ table. IsFresh wanted.now table × AreApart 0 wanted.now) }
    {
        let mut rows = Vec::new(alloc);
        rows.reserve_exact(wanted.spans())?;
        for i in 0..wanted.spans() {
            let row = Row::new(alloc, wanted.span(i))?;
            rows.push(row)?;
        }
        Ok(Table { rows })
    }

    /// What the table has of a page: None where it is not wanted.
    pub(crate) fn get(&self, p: Page) -> Option<Option<PageSource>>
        ensures { result ≡ slot self.now p }
    {
        match self.rows.get(row_of(&self.rows, p)) {
            Some(row) => row.get(p),
            None => None,
        }
    }

    /// The wanted page is now loaded so.
    pub(crate) fn set(&mut self, d: Page, loaded: PageSource)
        requires { IsSome (slot self.old d) }
        ensures here { slot self.new d ≡ Some (Some loaded) }
        ensures others { (p : ℕ) → d ≢ p → slot self.new p ≡ slot self.old p }
    {
        let i = row_of(&self.rows, d);
        self.rows[i].set(d, loaded);
    }
}
