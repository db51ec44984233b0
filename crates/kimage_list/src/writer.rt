//! The writer of a list.

ghost use Rattle.std.specs.Prelude.{◌≡◌, ℕ, ◌<◌, ◌≤◌, ◌+◌, ◌⊎◌, ◌↔◌, length, None, Some, IfOk, IfErr, false};
ghost use Rattle.kx_pages.specs.Bytes.{page_of};
ghost use Rattle.page_memory.specs.Contents.{at};
ghost use Rattle.page_memory.specs.inner.Contents.{IsHeld};
ghost use Rattle.page_pool.specs.Pages.{Pages, is_filed, usable_of};
ghost use Rattle.kx_pages.specs.Limits.{segment_page_limit};
ghost use Rattle.kx_pages.specs.Lists.{Has};
ghost use Rattle.kx_pages.specs.Spans.{pages};
ghost use Rattle.kx_pages.specs.Needs.{need_of};
ghost use Rattle.kimage_list.specs.inner.Held.{HoldSame, load_pages};
ghost use Rattle.kimage_list.specs.Tracking.{whole_pool};
ghost use Rattle.kimage_list.specs.inner.Writers.{History, StandsAt, IsAwaited, with_destination, with_source, need};
ghost use Rattle.kimage_list.specs.Calls.{HasDrawn};
ghost use Rattle.kimage_list.specs.inner.Calls.{load_begun, Refuses, IsPrepared, IsWritten};

use crate::begin::prepare;
use crate::open_list::OpenList;
use crate::written::{BeginFault, BeginRefused, Written};
use kx_pages::{Image, Mode, Page, PageSet, Wish, pages_needed};
use page_memory::Memory;
use page_pool::Pool;
use std::alloc::Global;
use std::marker::Model;

/// Owns memory and pool while a list is written. Contracts see what it has so far, and speak of a load by `StandsAt`:
/// the writer stands where the rules of taking pages and laying a list lead for a load that was asked for so much.
/// Only `begin` takes memory.
#[derive(Drop)]
pub struct ListWriter {
    list: OpenList,
    control: Page,
    mode: Mode,
    segments_left: usize,
    destination: Option<u64>,
}

impl Model for ListWriter {
    ghost use Rattle.kimage_list.specs.inner.Writers.{Writer, writer_code, History, StandsAt};

    ghost Value = { Writer };

    ghost coded = { writer_code };

    ghost use Rattle.kimage_list.specs.inner.Calls.{writer_of};

    ghost view = { writer_of };

    ghost invariant = { λ s. (h : History) × StandsAt h (writer_of s) };
}

impl ListWriter {
    /// Begins a load of the pages `wanted`, in so many segments: memory holds the pages that the load takes, the first
    /// usable ones of the pool, and no other for it; the control page and, with context preserved, the swap page are
    /// taken. Refuses where the pool has fewer usable pages than the load takes, or for want of memory; memory then
    /// reads as before, though some of these pages may be held, and the pool is as it was. 1 to 16 segments, at most
    /// 65,536 pages (this project's own limits; kexec_load(2) has KEXEC_SEGMENT_MAX), and nothing filed.
    pub fn begin(
        alloc: Global,
        mut memory: Memory,
        pool: Pool,
        wanted: &PageSet,
        segments: usize,
        wish: Wish,
    ) -> Result<ListWriter, BeginRefused>
        requires some { 1 ≤ segments }
        requires segments { segments ≤ 16 }
        requires pages { pages wanted.now ≤ segment_page_limit }
        requires unfiled { (p : ℕ) → is_filed pool p ≡ false }
        ensures begun { IfOk result (λ w.
            StandsAt (load_begun (at memory) (usable_of pool) wanted.now segments wish) w) }
        ensures pages { IfOk result (λ w. whole_pool w.pool ≡ whole_pool pool) }
        ensures enough { IfOk result (λ _.
            need_of wish segments (pages wanted.now) ≤ length (usable_of pool)) }
        ensures why { IfErr result (λ r.
            Refuses r.why (length (usable_of pool)) (need_of wish segments (pages wanted.now))) }
        ensures pool_back { IfErr result (λ r. r.pool ≡ pool) }
        ensures memory_back { IfErr result (λ r. (q : ℕ) → at r.memory q ≡ at memory q) }
        ensures sets_back { IfErr result (λ r. r.memory.sets ≡ memory.sets) }
        ensures held_back { IfErr result (λ r. (q : ℕ) → IsHeld memory q → IsHeld r.memory q) }
        ensures held { IfOk result (λ w. (q : ℕ) → IsHeld w.memory q
            ↔ (IsHeld memory q ⊎ Has q (load_pages pool wanted.now segments wish))) }
        ensures held_only { IfErr result (λ r. (q : ℕ) → IsHeld r.memory q
            → IsHeld memory q ⊎ Has q (load_pages pool wanted.now segments wish)) }
    {
        let need = pages_needed(wish, segments, wanted.total());
        let left = pool.left();
        if left < need {
            return Err(BeginRefused {
                memory,
                pool,
                why: BeginFault::NoPages { pool: left, need },
            });
        }
        match prepare(alloc, &mut memory, &pool, wanted, need) {
            Ok(table) => Ok(open(OpenList::new(memory, pool, table), segments, wish)),
            Err(_) => Err(BeginRefused {
                memory,
                pool,
                why: BeginFault::Memory,
            }),
        }
    }

    /// Renders the destination entry of a segment that starts at page `d`: the next source goes to `d`. Fewer than
    /// all destination entries were written.
    pub fn add_destination(&mut self, d: Page)
        requires { 0 < self.old.segments_left }
        ensures stands { (h : History) → StandsAt h self.old →
            StandsAt (with_destination h d) self.new }
        ensures pages { whole_pool self.new.pool ≡ whole_pool self.old.pool }
        ensures held { (q : ℕ) → IsHeld self.new.memory q ↔ IsHeld self.old.memory q }
    {
        self.list.add_start(d);
        self.segments_left -= 1;
        self.destination = Some(d.number());
    }

    /// Loads the current destination page, which is wanted and not yet loaded, with these at most 4,096 bytes, then
    /// zeros, and writes its source entry: the next source goes to the page behind it.
    pub fn add_source(&mut self, bytes: &[u8])
        requires destination { (d : ℕ) × (self.old.destination ≡ Some d) × IsAwaited self.old d }
        requires fits { length bytes.now ≤ 4096 }
        ensures stands { (h : History) (d : ℕ) → self.old.destination ≡ Some d → StandsAt h self.old
            → StandsAt (with_source h d (page_of bytes.now)) self.new }
        ensures pages { whole_pool self.new.pool ≡ whole_pool self.old.pool }
        ensures held { (q : ℕ) → IsHeld self.new.memory q ↔ IsHeld self.old.memory q }
    {
        match self.destination {
            Some(number) => {
                self.list.load_page(Page::from_number(number), bytes);
                self.destination = Some(number + 1);
            }
            None => unreachable!(),
        }
    }

    /// Ends the list with the done word. All destination entries were written, and every wanted page is loaded. Of the
    /// pool the load has drawn the first usable pages, and no other.
    pub fn finish(self) -> Written
        requires segments { self.segments_left ≡ 0 }
        requires loaded { (d : ℕ) → IsAwaited self d → ⊥ }
        ensures written { (h : History) → StandsAt h self → IsWritten h result }
        ensures drawn { (h : History) (p : Pages) → StandsAt h self → h.pool ≡ usable_of p
            → whole_pool self.pool ≡ whole_pool p → HasDrawn (need h) p result.pool }
        ensures pages { whole_pool result.pool ≡ whole_pool self.pool }
        ensures held { (q : ℕ) → IsHeld result.memory q ↔ IsHeld self.memory q }
    {
        let ListWriter {
            list,
            control,
            mode,
            segments_left: _,
            destination: _,
        } = self;
        let ended = list.end();
        Written {
            memory: ended.memory,
            pool: ended.pool,
            image: Image {
                head: ended.head,
                mode,
                control,
            },
        }
    }
}

// Takes the control page and, with context preserved, the swap page. They come before all link pages, as in the kernel:
// no page is loaded yet, so no exchange can change them later, and what names them can be told at once.
fn open(mut list: OpenList, segments: usize, wish: Wish) -> ListWriter
    requires { (h : History) × IsPrepared h list segments wish }
    ensures stands { (h : History) → IsPrepared h list segments wish → StandsAt h result }
    ensures pages { whole_pool result.pool ≡ whole_pool list.pool }
    ensures held { HoldSame result.memory list.memory }
{
    let first = list.take_first();
    let mode = match wish {
        Wish::Plain => Mode::Plain,
        Wish::Kept => Mode::Kept {
            swap: list.take_first(),
        },
    };
    ListWriter {
        list,
        control: first,
        mode,
        segments_left: segments,
        destination: None,
    }
}
