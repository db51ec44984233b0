//! The pages that are left.

ghost use Rattle.std.specs.Prelude.{◌≡◌, ◌+◌, ◌++◌, ◌≤◌, ◌<◌, drop, length, slice_index, take, IfOk, OnErr, OnOk};
ghost use Rattle.page_pool.specs.Pages.{pool_page_limit, usable_of};

use kx_pages::Page;
use page_pool::Pool;
use std::alloc::{AllocError, Global};
use std::collections::VecDeque;
use std::marker::Model;

// A pool gives its pages once and takes none back. So a page that comes back waits in a queue of its own, behind the pages of
// the pool that were never drawn: drawing and giving back cost what the pages themselves are, however many are left.
/// The pages left, in the order of drawing. Contracts see this list: the pages of the pool that were never drawn, and then
/// those that came back.
#[derive(Drop)]
pub(crate) struct FreePages {
    pool: Pool,
    queue: VecDeque<Page>,
}

impl Model for FreePages {
    ghost use Rattle.std.specs.Prelude.{ℕ, ◌++◌, ◌≤◌, List, length};
    ghost use Rattle.std.specs.Coded.{coded_ℕ, coded_list};
    ghost use Rattle.page_pool.specs.Pages.{pool_page_limit, usable_of};

    ghost Value = { List ℕ };

    ghost coded = { coded_list coded_ℕ };

    ghost view = { λ f. usable_of f.pool ++ f.queue.items };

    ghost invariant = { λ f. length (usable_of f.pool ++ f.queue.items) ≤ pool_page_limit };
}

impl FreePages {
    /// The pages that are left in the pool. It takes no memory.
    pub(crate) fn of(alloc: Global, pool: Pool) -> FreePages
        ensures { result ≡ usable_of pool }
    {
        // for its clause: how many pages a pool has
        let _left = pool.left();
        FreePages {
            pool,
            queue: VecDeque::new(alloc),
        }
    }

    /// How many they are.
    pub(crate) fn count(&self) -> u64
        ensures value { result ≡ length self.now }
        ensures few { result ≤ pool_page_limit }
    {
        self.pool.left() + self.queue.len() as u64
    }

    // The page that stands at this place.
    fn page(&self, i: u64) -> Page
        requires { i < length self.now }
        ensures { result ≡ slice_index self.now i }
    {
        let fresh = self.pool.left();
        if i < fresh {
            self.pool.page(i)
        } else {
            self.queue[(i - fresh) as usize]
        }
    }

    /// The first pages, so many.
    pub(crate) fn first(&self, alloc: Global, count: u64) -> Result<Vec<Page>, AllocError>
        requires { count ≤ length self.now }
        ensures { IfOk result (λ pages. pages.items ≡ take count self.now) }
    {
        let mut pages = Vec::new(alloc);
        pages.reserve_exact(count as usize)?;
        for i in 0..count {
            pages.push(self.page(i))?;
        }
        Ok(pages)
    }

    // Takes the first page out, if one is left.
    fn draw_one(&mut self)
        ensures { self.new ≡ drop 1 self.old }
    {
        match self.pool.draw() {
            Some(_) => (),
            None => {
                self.queue.pop_front();
            }
        }
    }

    /// Takes the first pages out, so many.
    pub(crate) fn draw(&mut self, count: u64)
        ensures { self.new ≡ drop count self.old }
    {
        for _ in 0..count {
            self.draw_one();
        }
    }

    /// These pages come back, behind all that are left.
    pub(crate) fn give_back(&mut self, pages: &[Page]) -> Result<(), AllocError>
        requires { length (self.old ++ pages.now) ≤ pool_page_limit }
        ensures given { OnOk result (self.new ≡ self.old ++ pages.now) }
        ensures same { OnErr result (self.new ≡ self.old) }
    {
        self.queue.reserve(pages.len())?;
        for page in pages {
            self.queue.push_back_reserved(*page);
        }
        Ok(())
    }
}
