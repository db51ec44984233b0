//! The pool of free pages that a load draws from, and the drawn pages that are filed.
//!
//! A load draws its pages in the pool's order, as the kernel's kexec core takes free pages from its page allocator. A
//! pool has a limit, as the kernel passes over pages past an architecture's limit on source memory: a page is usable
//! where its address is below the limit. Usable pages alone are drawn; the others stay in the pool, and are drawn in
//! their turn where the limit is raised. A drawn page that is some segment's destination is filed until its own request
//! comes. The pages of a pool differ, and they are at most 262,144 (this project's own limit). A pool has room for all
//! that it keeps of a page from the start, so that only the calls that make a pool take memory.
#![tactic(auto)]

ghost use Rattle.std.specs.Prelude.{◌≡◌, ◌↔◌, ℕ, List, Some, ◌+◌, ◌^◌, ◌%◌, ◌<◌, ◌≤◌, ◌++◌, ◌∷◌, [], true, false, length, slice_index, unwrap_or, IfSome, IfNone, IsSome, IfOk, IfErr};
ghost use Rattle.std.specs.Ordering.{nat_cmp};
ghost use Rattle.std.specs.FinMap as finite;
ghost use Rattle.std.specs.BTreeMap as tree;
ghost use Rattle.kx_laws.specs.inner.Results.{Gives};
ghost use Rattle.kx_pages.specs.Lists.{Distinct, count};
ghost use Rattle.page_pool.specs.Pages.{is_filed, left_of, pool_page_limit, usable_of};
ghost use Rattle.page_pool.specs.inner.Pages.{mark};
ghost use Rattle.page_pool.specs.inner.Queue.{is_waiting};
ghost use Rattle.page_pool.specs.inner.Marks.{marks_of};
ghost use Rattle.page_pool.specs.declared.fault.PoolFault.TheVariants as faults;
ghost use Rattle.page_pool.specs.File.{pool_reading, range_of, each_once};
ghost use Rattle.page_pool.specs.inner.File.{MarksOrRepeat, RepeatIsFirst};
ghost use Rattle.page_pool.specs.inner.Grammar.{IsPoolLine};

mod fault;
mod file;

pub use fault::PoolFault;
use file::pages_of;
use kx_pages::{ADDRESS_LIMIT, Page};
use std::alloc::Global;
use std::collections::BTreeMap;
use std::marker::Model;

/// How many pages a pool may have, 1 GiB in all (this project's own limit).
pub const POOL_PAGE_LIMIT: u64 = 262_144;

/// Pages to draw, in order, and which of the drawn pages are filed. Contracts see the pages that the pool was made of
/// and those drawn since, both in order, the limit, and a mark for each page. The pages left are those not drawn, and
/// the usable ones are those of them whose address is below the limit.
#[derive(Drop)]
pub struct Pool {
    pages: Vec<Page>,
    // The places in `pages` of the drawn pages, up to `next`, and of the usable pages left, from there up to `end`.
    queue: Vec<u32>,
    next: usize,
    end: usize,
    // Whether the page at this place was drawn, so that a new limit asks no search.
    is_drawn: Vec<bool>,
    limit: u64,
    marks: BTreeMap<Page, bool>,
}

impl Model for Pool {
    ghost use Rattle.std.specs.Prelude.{take};
    ghost use Rattle.page_pool.specs.Pages.{Pages};
    ghost use Rattle.page_pool.specs.inner.Pages.{pages_code};
    ghost use Rattle.page_pool.specs.inner.Queue.{pages_at};
    ghost use Rattle.page_pool.specs.inner.Marks.{marks_of, IsPool};

    ghost Value = { Pages };

    ghost coded = { pages_code };

    ghost view = { λ p. record {
      made = p.pages.items;
      drawn = pages_at p.pages.items (take p.next p.queue.items);
      limit = p.limit;
      marks = marks_of p.marks;
    } };

    ghost invariant = { λ p. IsPool p.pages.items p.queue.items p.is_drawn.items
        p.next p.end p.limit p.marks };
}

/// A line names a first and a last page exactly where it has the form of a pool line: a number, or a number, `-` and a
/// number.
pub fn ranges_are_pool_lines()
    ensures { (line : List ℕ) (first last : ℕ)
        → (range_of line ≡ Some (first, last)) ↔ IsPoolLine line first last }
{}

impl Pool {
    /// The pool of a pool file (this project's own format): a text of lines, each a page number, or `first-last` with
    /// both included, in hexadecimal. The pages are drawn in the order of the text. The limit is 2^46, so that each
    /// page is usable.
    ///
    /// The first fault is answered. Line after line it is BadLine where the line has not this form, Backwards where
    /// its last page is below its first, PastLimit where its last page is 2^34 or more, TooMany where the pages up to
    /// this line are more than 262,144; after all lines Repeats with the first page that stands earlier too. Memory
    /// comes only where memory ran out.
    #[tactic(auto, unfolding(crate::specs::File::pool_reading))]
    pub fn read(alloc: Global, text: &[u8]) -> Result<Pool, PoolFault>
        ensures exact { Gives faults.Memory (λ p. p.made) result (pool_reading text.now) }
        ensures undrawn { IfOk result (λ p. p.drawn ≡ []) }
        ensures limit { IfOk result (λ p. p.limit ≡ 2 ^ 46) }
        ensures usable { IfOk result (λ p. usable_of p ≡ p.made) }
        ensures unfiled { IfOk result (λ p. (q : ℕ) → is_filed p q ≡ false) }
    {
        match pages_of(alloc, text) {
            Ok(pages) => Pool::new(alloc, pages),
            Err(fault) => Err(fault),
        }
    }

    /// A pool of these pages, at most 262,144, to be drawn in this order, with the limit 2^46. Repeats with the first
    /// page of the list that stands earlier too, exactly where one does; Memory only where memory ran out.
    pub fn new(alloc: Global, pages: Vec<Page>) -> Result<Pool, PoolFault>
        requires { length pages.items ≤ pool_page_limit }
        ensures exact { Gives faults.Memory (λ p. p.made) result (each_once pages.items) }
        ensures first { IfErr result (λ e. RepeatIsFirst pages.items e) }
        ensures made { IfOk result (λ p. p.made ≡ pages.items) }
        ensures undrawn { IfOk result (λ p. p.drawn ≡ []) }
        ensures limit { IfOk result (λ p. p.limit ≡ 2 ^ 46) }
        ensures usable { IfOk result (λ p. usable_of p ≡ p.made) }
        ensures unfiled { IfOk result (λ p. (q : ℕ) → is_filed p q ≡ false) }
    {
        let marks = match marks_for(alloc, &pages) {
            Ok(marks) => marks,
            Err(fault) => return Err(fault),
        };
        let queue = vec![in alloc; 0; pages.len()]?;
        let is_drawn = vec![in alloc; false; pages.len()]?;
        let none_usable = Pool {
            pages,
            queue,
            next: 0,
            end: 0,
            is_drawn,
            limit: 0,
            marks,
        };
        Ok(none_usable.below(ADDRESS_LIMIT))
    }

    /// A pool with no page, and the limit 2^46.
    pub fn empty(alloc: Global) -> Pool
        ensures value { result
            ≡ record { made = []; drawn = []; limit = 2 ^ 46; marks = finite.empty } }
        ensures usable { usable_of result ≡ [] }
    {
        Pool {
            pages: Vec::new(alloc),
            queue: Vec::new(alloc),
            next: 0,
            end: 0,
            is_drawn: Vec::new(alloc),
            limit: ADDRESS_LIMIT,
            marks: BTreeMap::new(alloc),
        }
    }

    /// The same pool with this limit, a multiple of 4,096 and at most 2^46: the pages left whose address is below it
    /// are usable. No page is drawn, and no memory is taken. A limit may follow draws and other limits: where it is
    /// higher than the one before, pages that were passed over are drawn in their turn.
    pub fn below(mut self, limit: u64) -> Pool
        requires aligned { limit % 4096 ≡ 0 }
        requires inside { limit ≤ 2 ^ 46 }
        ensures { result ≡ record self { limit = limit } }
    {
        self.limit = limit;
        self.end = self.next;
        for place in 0..self.pages.len() {
            if is_waiting(self.is_drawn[place], self.pages[place], limit) {
                self.queue[self.end] = place as u32;
                self.end += 1;
            }
        }
        self
    }

    /// How many pages can be drawn: the usable ones. The other clauses tell what holds of every pool.
    pub fn left(&self) -> u64
        ensures value { result ≡ length (usable_of self.now) }
        ensures once { Distinct (self.now.drawn ++ usable_of self.now) }
        ensures each_once { Distinct self.now.made }
        ensures most { length self.now.made ≤ pool_page_limit }
        ensures few { length self.now.drawn + length (usable_of self.now) ≤ pool_page_limit }
        ensures filed_were_drawn { (q : ℕ) → is_filed self.now q ≡ true
            → 1 ≤ count q self.now.drawn }
    {
        (self.end - self.next) as u64
    }

    /// How many of the pages left are not usable, as their address is the limit or above it.
    pub fn unusable(&self) -> u64
        ensures { result + length (usable_of self.now) ≡ length (left_of self.now) }
    {
        (self.pages.len() - self.end) as u64
    }

    /// The page that the draw after `i` more draws gives.
    pub fn page(&self, i: u64) -> Page
        requires { i < length (usable_of self.now) }
        ensures { result ≡ slice_index (usable_of self.now) i }
    {
        self.pages[self.queue[self.next + i as usize] as usize]
    }

    /// The first usable page, which leaves the pool. None exactly where no usable page is left.
    pub fn draw(&mut self) -> Option<Page>
        ensures some { IfSome result (λ q. (usable_of self.old ≡ q ∷ usable_of self.new)
            × (self.new ≡ record self.old { drawn = self.old.drawn ++ q ∷ [] })) }
        ensures none { IfNone result ((usable_of self.old ≡ []) × (self.new ≡ self.old)) }
    {
        if self.next < self.end {
            let place = self.queue[self.next] as usize;
            self.is_drawn[place] = true;
            self.next += 1;
            Some(self.pages[place])
        } else {
            None
        }
    }

    /// Files a drawn page: it is kept for its own request. A page that is filed already stays so.
    pub fn file(&mut self, p: Page)
        requires { 1 ≤ count p self.old.drawn }
        ensures { self.new ≡ mark self.old p true }
    {
        mark(&mut self.marks, p, true);
    }

    /// The page `d`, which is no longer filed then. None exactly where it is not filed.
    pub fn take_filed(&mut self, d: Page) -> Option<Page>
        ensures drawn { IfSome result (λ p. 1 ≤ count p self.old.drawn) }
        ensures some { IfSome result (λ p. (p ≡ d)
            × (is_filed self.old d ≡ true)
            × (self.new ≡ mark self.old d false)) }
        ensures none { IfNone result ((is_filed self.old d ≡ false) × (self.new ≡ self.old)) }
    {
        if is_marked(&self.marks, d) {
            mark(&mut self.marks, d, false);
            Some(d)
        } else {
            None
        }
    }
}

/// Whether the page is left, and its address is below the limit.
fn is_waiting(is_drawn: bool, p: Page, limit: u64) -> bool
    ensures { result ≡ is_waiting limit is_drawn p }
{
    !is_drawn && p.address() < limit
}

/// Whether the page has a mark that says filed.
fn is_marked(marks: &BTreeMap<Page, bool>, p: Page) -> bool
    ensures value { result ≡ unwrap_or (finite.get (marks_of marks.now) p) false }
    ensures has { result ≡ true → IsSome (tree.get nat_cmp marks.now p) }
{
    match marks.get(&p) {
        Some(mark) => *mark,
        None => false,
    }
}

/// Changes the mark of a page that has one.
fn mark(marks: &mut BTreeMap<Page, bool>, p: Page, is_filed: bool)
    requires { IsSome (tree.get nat_cmp marks.old p) }
    ensures value { marks_of marks.new ≡ finite.insert (marks_of marks.old) p is_filed }
    ensures have { (q : ℕ) → IsSome (tree.get nat_cmp marks.old q)
        → IsSome (tree.get nat_cmp marks.new q) }
{
    match marks.get_mut(&p) {
        Some(mark) => *mark = is_filed,
        None => unreachable!(),
    }
}

/// A mark for each page, none of them filed. Repeats with the first page that stands earlier too.
fn marks_for(alloc: Global, pages: &[Page]) -> Result<BTreeMap<Page, bool>, PoolFault>
    ensures { MarksOrRepeat result pages.now }
{
    let mut marks = BTreeMap::new(alloc);
    for p in pages {
        // A page's number is below 2^34, so its address is below the limit of a new pool.
        let _number = p.number();
        match marks.insert(*p, false) {
            Ok(None) => (),
            Ok(Some(_)) => return Err(PoolFault::Repeats { page: *p }),
            Err(_) => return Err(PoolFault::Memory),
        }
    }
    Ok(marks)
}
