//! A load while its segments are written.

ghost use Rattle.std.specs.Prelude.{◌≡◌, ℕ, ◌<◌, ◌≤◌, ◌+◌, ◌∷◌, ◌++◌, ◌⊎◌, ◌↔◌, [], List, length, take, IfOk, IfErr, None, Some, true, false};
ghost use Rattle.kx_pages.specs.Lists.{Has};
ghost use Rattle.kx_pages.specs.Spans.{AreApart, in_spans};
ghost use Rattle.kx_pages.specs.declared.image.Wish.{Wish as WishOf};
ghost use Rattle.page_memory.specs.Contents.{at};
ghost use Rattle.page_memory.specs.inner.Contents.{IsHeld};
ghost use Rattle.kx_pages.specs.Bytes.{Mem};
ghost use Rattle.page_pool.specs.Pages.{is_filed, usable_of};
ghost use Rattle.kimage_list.specs.Load.{Entry, Move};
ghost use Rattle.kimage_list.specs.inner.Load.{pages_of};
ghost use Rattle.kimage_list.specs.inner.Held.{HoldSame};
ghost use Rattle.kimage_list.specs.Tracking.{whole_pool};
ghost use Rattle.kimage_list.specs.inner.Writers.{destination_after};
ghost use Rattle.kimage_list.specs.inner.Calls.{Refuses};
ghost use Rattle.segments.specs.Values.{is_destination, need};
ghost use Rattle.segments.specs.inner.Shape.{AreSegments};
ghost use Rattle.load_states.specs.Loads.{entries_of};
ghost use Rattle.load_states.specs.inner.Loads.{LoadsExactly};
ghost use Rattle.load_states.specs.Fillings.{IsSealed};
ghost use Rattle.load_states.specs.inner.Fillings.{Fills, FillsFrom, left};

use crate::loaded::Loaded;
use kimage_list::{BeginFault, ListWriter};
use kx_pages::{Page, PageSet, Wish};
use page_memory::Memory;
use page_pool::Pool;
use segments::Segments;
use std::alloc::Global;
use std::marker::Model;

/// A load that is not begun.
#[derive(Drop)]
pub struct BeginBack {
    /// The memory that was handed in: it reads as before.
    pub memory: Memory,
    /// The pool that was handed in, as it was.
    pub pool: Pool,
    /// The segments, as they were.
    pub segments: Segments,
    /// The reason.
    pub why: BeginFault,
}

// Segments are written whole and in order, so that what the writer was asked for is always the entries of the segments
// before: no page is asked for twice, since segments do not overlap, and after the last one no wanted page is awaited.
/// A load under way: some segments are written, each whole. Contracts speak of it by `FillsFrom`. Only `begin` takes
/// memory, and nothing after it has a refusal.
#[derive(Drop)]
pub struct Filling {
    writer: ListWriter,
    segments: Segments,
    written: usize,
}

impl Model for Filling {
    ghost use Rattle.std.specs.Prelude.{ℕ, List};
    ghost use Rattle.kx_pages.specs.Bytes.{Mem};
    ghost use Rattle.kx_pages.specs.declared.image.Wish.{Wish};
    ghost use Rattle.load_states.specs.inner.Fillings.{Fill, fill_code, FillsFrom};

    ghost Value = { Fill };

    ghost coded = { fill_code };

    ghost view = { λ s. record { writer = s.writer; segments = s.segments; written = s.written } };

    ghost invariant = { λ s. (M : Mem) × (pool : List ℕ) × (wish : Wish)
        × FillsFrom M pool wish
        (record { writer = s.writer; segments = s.segments; written = s.written }) };
}

impl Filling {
    /// Begins a load of the segments. Refuses where the pool has fewer usable pages than the load takes, or for want of
    /// memory: nothing has changed then, but that some of the load's pages may be held. Memory holds these pages, the first
    /// usable ones of the pool, and no other for the load. Nothing is filed. With so many usable pages,
    /// and with no fewer, the rules of taking pages bring a load of the segments to its end.
    pub fn begin(
        alloc: Global,
        memory: Memory,
        pool: Pool,
        segments: Segments,
        wish: Wish,
    ) -> Result<Filling, BeginBack>
        requires unfiled { (p : ℕ) → is_filed pool p ≡ false }
        ensures begun { IfOk result (λ f. FillsFrom (at memory) (usable_of pool) wish f) }
        ensures segments { IfOk result (λ f. (f.segments ≡ segments) × (f.written ≡ 0)) }
        ensures enough { IfOk result (λ _. need wish segments ≤ length (usable_of pool)) }
        ensures pages { IfOk result (λ f. whole_pool f.writer.pool ≡ whole_pool pool) }
        ensures exactly { LoadsExactly wish segments (usable_of pool) }
        ensures why { IfErr result
            (λ r. Refuses r.why (length (usable_of pool)) (need wish segments)) }
        ensures pool_back { IfErr result (λ r. r.pool ≡ pool) }
        ensures segments_back { IfErr result (λ r. r.segments ≡ segments) }
        ensures memory_back { IfErr result (λ r. (q : ℕ) → at r.memory q ≡ at memory q) }
        ensures sets_back { IfErr result (λ r. r.memory.sets ≡ memory.sets) }
        ensures held_back { IfErr result (λ r. (q : ℕ) → IsHeld memory q → IsHeld r.memory q) }
        ensures held { IfOk result (λ f. (q : ℕ) → IsHeld f.writer.memory q
            ↔ (IsHeld memory q ⊎ Has q (take (need wish segments) (usable_of pool)))) }
        ensures held_only { IfErr result (λ r. (q : ℕ) → IsHeld r.memory q
            → IsHeld memory q ⊎ Has q (take (need wish segments) (usable_of pool))) }
    {
        let count = segments.count();
        // for its clause: what every value of the type keeps
        let _left = pool.left();
        let begun = ListWriter::begin(alloc, memory, pool, pages_of(&segments), count, wish);
        match begun {
            Ok(writer) => Ok(Filling {
                writer,
                segments,
                written: 0,
            }),
            Err(refused) => Err(BeginBack {
                memory: refused.memory,
                pool: refused.pool,
                segments,
                why: refused.why,
            }),
        }
    }

    /// How many segments are not yet written.
    pub fn left(&self) -> usize
        ensures { result ≡ left self.now }
    {
        self.segments.count() - self.written
    }

    /// Writes the next segment, whole: its destination entry, and each of its pages. One is left.
    pub fn fill(&mut self)
        requires { 0 < left self.old }
        ensures filled { (M : Mem) (pool : List ℕ) (wish : WishOf) →
            FillsFrom M pool wish self.old → FillsFrom M pool wish self.new }
        ensures segments { self.new.segments ≡ self.old.segments }
        ensures written { self.new.written ≡ self.old.written + 1 }
        ensures pages { whole_pool self.new.writer.pool ≡ whole_pool self.old.writer.pool }
        ensures held { HoldSame self.new.writer.memory self.old.writer.memory }
    {
        fill_segment(&mut self.writer, &self.segments, self.written);
        self.written += 1;
    }

    /// Ends the list. No segment is left. The list is accepted for the segments, in the memory of the load.
    pub fn seal(self) -> Loaded
        requires { left self ≡ 0 }
        ensures sealed { (M : Mem) (pool : List ℕ) (wish : WishOf) → FillsFrom M pool wish self →
            IsSealed M pool wish self.segments result }
        ensures pages { whole_pool result.pool ≡ whole_pool self.writer.pool }
        ensures held { HoldSame result.memory self.writer.memory }
    {
        let Filling {
            writer,
            segments,
            written: _,
        } = self;
        let written = writer.finish();
        Loaded::from_parts(written.memory, written.pool, written.image, segments)
    }

    /// Writes the segments that are left, and ends the list: `fill` for each of them, and `seal`.
    pub fn finish(mut self) -> Loaded
        ensures sealed { (M : Mem) (pool : List ℕ) (wish : WishOf) → FillsFrom M pool wish self →
            IsSealed M pool wish self.segments result }
        ensures pages { whole_pool result.pool ≡ whole_pool self.writer.pool }
        ensures held { HoldSame result.memory self.writer.memory }
    {
        while self.left() > 0 {
            self.fill();
        }
        self.seal()
    }
}

// The set of the segments' pages.
fn pages_of(segments: &Segments) -> &PageSet
    ensures pages { (q : ℕ) → in_spans result.now q ≡ is_destination segments.now q }
    ensures apart { AreApart 0 result.now }
{
    let pages = segments.spans();
    // for its clause: what every value of the type keeps
    let _spans = pages.spans();
    pages
}

// Writes segment number i, where those before it are written.
fn fill_segment(writer: &mut ListWriter, segments: &Segments, i: usize)
    requires inside { i < length segments.now }
    requires good { AreSegments segments.now }
    requires ready { (M : Mem) × (pool : List ℕ) × (wish : WishOf) ×
        Fills M pool wish segments.now (entries_of (take i segments.now)) writer.old }
    ensures filled { (M : Mem) (pool : List ℕ) (wish : WishOf) →
        Fills M pool wish segments.now (entries_of (take i segments.now)) writer.old →
        Fills M pool wish segments.now (entries_of (take (i + 1) segments.now)) writer.new }
    ensures pages { whole_pool writer.new.pool ≡ whole_pool writer.old.pool }
    ensures held { HoldSame writer.new.memory writer.old.memory }
{
    let run = segments.span(i);
    let first = run.first();
    let count = run.count();
    writer.add_destination(Page::from_number(first));
    for number in first..first + count {
        fill_page(writer, segments, Page::from_number(number));
    }
}

// Loads page p of the segments, which is the next destination, with what it is to have.
fn fill_page(writer: &mut ListWriter, segments: &Segments, p: Page)
    requires wanted { is_destination segments.now p ≡ true }
    requires ready { (M : Mem) × (pool : List ℕ) × (wish : WishOf) × (es : List Entry) ×
        Fills M pool wish segments.now es writer.old × (destination_after None es ≡ Some p) ×
        (Has p (pages_of es) → ⊥) }
    ensures filled { (M : Mem) (pool : List ℕ) (wish : WishOf) (es : List Entry) →
        Fills M pool wish segments.now es writer.old → destination_after None es ≡ Some p →
        Fills M pool wish segments.now (es ++ Move p ∷ []) writer.new }
    ensures pages { whole_pool writer.new.pool ≡ whole_pool writer.old.pool }
    ensures held { HoldSame writer.new.memory writer.old.memory }
{
    match segments.wanted(p) {
        Some(bytes) => writer.add_source(bytes),
        None => unreachable!(),
    }
}
