//! Taking pages, as a function of the pool and the table alone.
//!
//! The invariant is that of `kimage_alloc_page` in the kernel's kexec core: the source of a loaded page is this page
//! itself, or a page that is no destination of the load. A run writes destinations alone (and with context preserved the
//! sources of moves that are done). So no move destroys the source of a later one: were that source a destination, it
//! would be its own, and no page is the destination of two moves. The moves may then come in any order, and the page
//! that a move finds at its source is the one that the load put there.
//!
//! The link pages, the control page and the swap page are no destinations either, so the list stands while it runs.

ghost use Rattle.std.specs.Prelude.{◌≡◌, ◌≢◌, ℕ, Bool, Some, ◌==◌};
ghost use Rattle.kimage_list.specs.Load.{Loading, is_for, draw, take_page};
ghost use Rattle.kimage_list.specs.inner.Tables.{slot};
ghost use Rattle.kimage_list.specs.Tracking.{whole_pool};
ghost use Rattle.kimage_list.specs.inner.Tracking.{Tracks, Gives, fate_of};

use crate::table::{PageSource, Table};
use kx_pages::Page;
use page_pool::Pool;

/// A pair that was exchanged: its page became its own source, at this word.
#[derive(Clone, Copy)]
pub(crate) struct MovedPage {
    pub(crate) page: Page,
    pub(crate) place: u64,
}

/// A page to use, and the pair whose bytes it has until they are moved.
#[derive(Clone, Copy)]
pub(crate) struct TakenPage {
    pub(crate) page: Page,
    pub(crate) moved: Option<MovedPage>,
}

/// What becomes of a drawn page.
#[derive(Clone, Copy)]
enum Fate {
    Given,
    Filed,
    Exchanged(PageSource),
}

fn fate_at(table: &Table, wanted: Option<Page>, q: Page) -> Fate
    ensures { result ≡ fate_of (is_for wanted q) (slot table.now q) }
{
    if is_wanted(wanted, q) {
        return Fate::Given;
    }
    match table.get(q) {
        None => Fate::Given,
        Some(None) => Fate::Filed,
        Some(Some(loaded)) => Fate::Exchanged(loaded),
    }
}

fn is_wanted(wanted: Option<Page>, q: Page) -> bool
    ensures { result ≡ is_for wanted q }
{
    match wanted {
        Some(d) => d == q,
        None => false,
    }
}

// Draws pages until one serves. What is drawn is one of three, and each keeps the invariant:
//
// - It is the wanted page itself, or no page of the load: it is given. As a source it is its own destination, or none.
// - It is wanted by a later request, and not loaded yet. Given now, it would be the source of one page and the
//   destination of another. So it is filed, for its own request, which takes it before anything is drawn.
// - It is a page that is loaded from elsewhere. Its bytes can lie in it as well: it becomes its own source, and the page
//   in which they lay, which is no destination, is given in its place. No request comes for a page twice, so filing it
//   would lose it.
//
// The pool has no page twice, so each draw ends one of finitely many, and a pool of as many pages as the load needs is
// never drawn empty: a filed page is taken by its request, and an exchange gives a page for a page.
fn draw_page(pool: &mut Pool, table: &mut Table, wanted: &Option<Page>) -> Option<TakenPage>
    ensures gives { (D : ℕ → Bool) (l : Loading) → Tracks D l pool.old table.old →
        Gives D l (draw D wanted.now l.pairs l.spare l.filed l.left) result pool.new
        table.old table.new }
    ensures pages { whole_pool pool.new ≡ whole_pool pool.old }
{
    while let Some(q) = pool.draw() {
        match fate_at(table, *wanted, q) {
            Fate::Given => {
                return Some(TakenPage {
                    page: q,
                    moved: None,
                });
            }
            Fate::Filed => pool.file(q),
            Fate::Exchanged(loaded) => return Some(exchange(table, q, loaded)),
        }
    }
    None
}

// The loaded page q becomes its own source, and its old source is free.
fn exchange(table: &mut Table, q: Page, loaded: PageSource) -> TakenPage
    requires { slot table.old q ≡ Some (Some loaded) }
    ensures page { result.page ≡ loaded.source }
    ensures moved { result.moved ≡ Some (record { page = q; place = loaded.place }) }
    ensures here { slot table.new q ≡ Some (Some (record { source = q; place = loaded.place })) }
    ensures others { (p : ℕ) → q ≢ p → slot table.new p ≡ slot table.old p }
{
    table.set(
        q,
        PageSource {
            source: q,
            place: loaded.place,
        },
    );
    TakenPage {
        page: loaded.source,
        moved: Some(MovedPage {
            page: q,
            place: loaded.place,
        }),
    }
}

/// Takes a page for a wanted page, or for none.
pub(crate) fn take_page(
    pool: &mut Pool,
    table: &mut Table,
    wanted: Option<Page>,
) -> Option<TakenPage>
    ensures gives { (D : ℕ → Bool) (l : Loading) → Tracks D l pool.old table.old →
        Gives D l (take_page D wanted l) result pool.new table.old table.new }
    ensures pages { whole_pool pool.new ≡ whole_pool pool.old }
{
    if let Some(d) = wanted {
        if let Some(page) = pool.take_filed(d) {
            return Some(TakenPage { page, moved: None });
        }
    }
    draw_page(pool, table, &wanted)
}
