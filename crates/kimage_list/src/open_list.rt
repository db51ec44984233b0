//! A list while it is written: the steps of the writer.

ghost use Rattle.std.specs.Prelude.{◌≡◌, ℕ, ◌<◌, ◌≤◌, ◌+◌, ◌∷◌, List, [], length, None, Some};
ghost use Rattle.page_memory.specs.Contents.{at};
ghost use Rattle.page_memory.specs.inner.Contents.{IsHeld};
ghost use Rattle.page_memory.specs.inner.Memory.{set_word};
ghost use Rattle.kimage_list.specs.inner.Held.{HoldSame};
ghost use Rattle.kimage_list.specs.Load.{Loading};
ghost use Rattle.kimage_list.specs.inner.OpenLists.{IsRendered, IsRenderedBut};
ghost use Rattle.kimage_list.specs.Tracking.{whole_pool};
ghost use Rattle.kimage_list.specs.inner.Drafts.{Draft, CanTake, IsFull, with_link, Room, HasRoom, IsSteady, IsNext, with_first, with_start, with_move, HasLink, laid_by, HeadIs};

use crate::pages::{destination_word, fill, link_word, settle, source_word, write_word};
use crate::table::{PageSource, Table};
use crate::taking::take_page;
use kx_pages::{DONE_WORD, LINK_PAGE_ENTRIES, Page};
use page_memory::Memory;
use page_pool::Pool;

/// Memory, pool and table of a list that is written.
#[derive(Drop)]
pub(crate) struct OpenList {
    pub(crate) memory: Memory,
    pub(crate) pool: Pool,
    pub(crate) table: Table,
    pub(crate) next: u64,
    pub(crate) entries: u64,
    pub(crate) head: u64,
}

/// Memory, pool and head word of a list that has ended.
#[derive(Drop)]
pub(crate) struct EndedList {
    pub(crate) memory: Memory,
    pub(crate) pool: Pool,
    pub(crate) head: u64,
}

impl OpenList {
    // Nothing is written yet.
    pub(crate) fn new(memory: Memory, pool: Pool, table: Table) -> OpenList
        ensures { result
            ≡ record {
              memory = memory;
              pool = pool;
              table = table;
              next = 0;
              entries = 0;
              head = 0;
            } }
    {
        OpenList {
            memory,
            pool,
            table,
            next: 0,
            entries: 0,
            head: 0,
        }
    }

    // Takes a page before the link pages: the control page, or the swap page.
    pub(crate) fn take_first(&mut self) -> Page
        requires { (d : Draft) × (t : ℕ × Loading) × IsRendered self.old d × CanTake d None t ×
            (d.links ≡ []) × (d.loading.pairs ≡ []) }
        ensures given { (d : Draft) (t : ℕ × Loading) → IsRendered self.old d → CanTake d None t
            → d.links ≡ []
            → d.loading.pairs ≡ [] → (result ≡ t.0) × IsRendered self.new (with_first d t) }
        ensures pages { whole_pool self.new.pool ≡ whole_pool self.old.pool }
        ensures held { HoldSame self.new.memory self.old.memory }
    {
        self.take(None)
    }

    // Takes a page for a wanted page, or for none.
    fn take(&mut self, wanted: Option<Page>) -> Page
        requires { (d : Draft) × (t : ℕ × Loading) × IsRendered self.old d ×
            CanTake d wanted t }
        ensures given { (d : Draft) (t : ℕ × Loading) → IsRendered self.old d
            → CanTake d wanted t → (result ≡ t.0)
            × IsRenderedBut (t.0 ∷ []) self.new (record d { loading = t.1 })
            × (self.new.next ≡ self.old.next)
            × (self.new.entries ≡ self.old.entries) × (self.new.head ≡ self.old.head) ×
            (d.loading.pairs ≡ [] → at self.new.memory ≡ at self.old.memory) }
        ensures pages { whole_pool self.new.pool ≡ whole_pool self.old.pool }
        ensures held { HoldSame self.new.memory self.old.memory }
    {
        match take_page(&mut self.pool, &mut self.table, wanted) {
            Some(taken) => {
                settle(&mut self.memory, &taken);
                taken.page
            }
            None => unreachable!(),
        }
    }

    // Takes a link page more, clears it, and writes the word that leads to it. A page of a pool may hold anything, also
    // words: cleared, the list has none that was not written. The word that leads on stands in the place behind the last
    // entry, in the last slot of the page before, or is the head.
    fn take_link(&mut self)
        requires { (d : Draft) × (t : ℕ × Loading) × IsRendered self.old d × CanTake d None t ×
            IsFull d }
        ensures written { (d : Draft) (t : ℕ × Loading) → IsRendered self.old d
            → CanTake d None t → IsFull d
            → IsRendered self.new (with_link d t) }
        ensures head { (d : Draft) (t : ℕ × Loading) → IsRendered self.old d
            → CanTake d None t → IsFull d
            → HeadIs d.links self.old.head → HeadIs (with_link d t).links self.new.head }
        ensures pages { whole_pool self.new.pool ≡ whole_pool self.old.pool }
        ensures held { HoldSame self.new.memory self.old.memory }
    {
        let link = self.take(None);
        fill(&mut self.memory, link, &[]);
        if self.entries == 0 {
            self.head = link_word(link);
        } else {
            write_word(&mut self.memory, self.next, link_word(link));
        }
        self.next = link.address();
    }

    // Takes a link page more, where the next entry needs one.
    fn make_room(&mut self)
        requires { (d : Draft) × (e : Draft) × IsRendered self.old d × Room d e }
        ensures written { (d : Draft) (e : Draft) → IsRendered self.old d → Room d e →
            IsRendered self.new e × HasRoom e }
        ensures head { (d : Draft) (e : Draft) → IsRendered self.old d → Room d e →
            HeadIs d.links self.old.head → HeadIs e.links self.new.head }
        ensures pages { whole_pool self.new.pool ≡ whole_pool self.old.pool }
        ensures held { HoldSame self.new.memory self.old.memory }
    {
        if self.entries % LINK_PAGE_ENTRIES as u64 == 0 {
            self.take_link();
        }
    }

    // Writes the next word.
    fn write_entry(&mut self, word: u64)
        requires { (d : Draft) × (hand : List ℕ) × IsRenderedBut hand self.old d × HasRoom d }
        ensures value { at self.new.memory ≡ set_word (at self.old.memory) self.old.next word }
        ensures stay { (q : ℕ) → IsHeld self.old.memory q → IsHeld self.new.memory q }
        ensures only { (q : ℕ) → IsHeld self.new.memory q → IsHeld self.old.memory q }
        ensures others { (self.new.pool ≡ self.old.pool) × (self.new.table ≡ self.old.table) ×
            (self.new.head ≡ self.old.head) }
        ensures next { (self.new.next ≡ self.old.next + 8) ×
            (self.new.entries ≡ self.old.entries + 1) }
    {
        write_word(&mut self.memory, self.next, word);
        self.next += 8;
        self.entries += 1;
    }

    // Writes the entry of a segment's start.
    pub(crate) fn add_start(&mut self, p: Page)
        requires { (d : Draft) × (e : Draft) × IsRendered self.old d × Room d e }
        ensures written { (d : Draft) (e : Draft) → IsRendered self.old d → Room d e →
            IsRendered self.new (with_start e p) × IsSteady (with_start e p) }
        ensures head { (d : Draft) (e : Draft) → IsRendered self.old d → Room d e →
            HeadIs d.links self.old.head → HeadIs e.links self.new.head }
        ensures pages { whole_pool self.new.pool ≡ whole_pool self.old.pool }
        ensures held { HoldSame self.new.memory self.old.memory }
    {
        self.make_room();
        self.write_entry(destination_word(p));
    }

    // Loads page p with these bytes, then zeros. Room comes first: a link page that is taken may itself be an exchange,
    // and so change the table. The source is entered into the table with the place of its word, so that an exchange
    // later finds the word that it must change.
    pub(crate) fn load_page(&mut self, p: Page, bytes: &[u8])
        requires fits { length bytes.now ≤ 4096 }
        requires ready { (d : Draft) × (e : Draft) × (t : ℕ × Loading)
            × IsRendered self.old d × Room d e
            × CanTake e (Some p) t × IsNext e p bytes.now }
        ensures written { (d : Draft) (e : Draft) (t : ℕ × Loading)
            → IsRendered self.old d → Room d e
            → CanTake e (Some p) t → IsNext e p bytes.now →
            IsRendered self.new (with_move e p t) × IsSteady (with_move e p t) }
        ensures head { (d : Draft) (e : Draft) (t : ℕ × Loading) → IsRendered self.old d → Room d e
            → CanTake e (Some p) t → HeadIs d.links self.old.head → HeadIs e.links self.new.head }
        ensures pages { whole_pool self.new.pool ≡ whole_pool self.old.pool }
        ensures held { HoldSame self.new.memory self.old.memory }
    {
        self.make_room();
        let source = self.take(Some(p));
        fill(&mut self.memory, source, bytes);
        let place = self.next;
        self.write_entry(source_word(source));
        self.table.set(p, PageSource { source, place });
    }

    // Writes the done word.
    pub(crate) fn end(self) -> EndedList
        requires { (d : Draft) × IsRendered self d × HasLink d }
        ensures memory { (d : Draft) → IsRendered self d → HasLink d → (p : ℕ) →
            at result.memory p ≡ laid_by d p }
        ensures pool { result.pool ≡ self.pool }
        ensures head { result.head ≡ self.head }
        ensures held { HoldSame result.memory self.memory }
    {
        let OpenList {
            mut memory,
            pool,
            next,
            head,
            ..
        } = self;
        write_word(&mut memory, next, DONE_WORD);
        EndedList { memory, pool, head }
    }
}
