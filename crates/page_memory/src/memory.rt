//! A memory: its pages, and how they change.

ghost use Rattle.std.specs.Prelude.{◌≡◌, ℕ, ◌+◌, ◌*◌, ◌/◌, ◌%◌, ◌<◌, ◌≤◌, ◌^◌, ◌≢◌, ◌⊎◌, ◌↔◌, length, slice_index, IsTrue, IfSome, IsSome, All, OnOk, OnErr, IfOk, IfErr};
ghost use Rattle.std.specs.FinMap as finite;
ghost use Rattle.std.specs.Option.{option_map};
ghost use Rattle.kx_fields.specs.Fields.{IsBlock};
ghost use Rattle.kx_laws.specs.inner.Results.{Gives};
ghost use Rattle.kx_pages.specs.Lists.{Has};
ghost use Rattle.page_memory.specs.File.{reading, stored_pages, file};
ghost use Rattle.page_memory.specs.inner.File.{HasNoFile, IsFileOf};
ghost use Rattle.kx_pages.specs.Bytes.{page_of};
ghost use Rattle.page_memory.specs.Contents.{IsMemory, Contents, at, with_page, swap_pages};
ghost use Rattle.page_memory.specs.inner.Contents.{IsHeld, with_word, after_set};
ghost use Rattle.page_memory.specs.Memory.{word};
ghost use Rattle.page_memory.specs.inner.Frames.{pages_in, IsTable};

use crate::buffer::{add_frame, copy_frame, exchange, frame, write_frame, write_word};
use crate::fault::{HeavyFault, MemFault};
use crate::file::{file_of, file_table, is_zero};
use crate::in_place::file_in_place;
use crate::layout::{HEAD, SLOT};
use crate::table::Table;
use byteorder::{ByteOrder, LittleEndian};
use kx_pages::{PAGE_SIZE, Page, ZERO_PAGE, copy_of, room_for};
use std::alloc::{AllocError, Global};
use std::collections::BTreeMap;
use std::marker::Model;

/// A memory image. A page that is held stays held in every call, after a refusal too.
#[derive(Drop)]
pub struct Memory {
    frames: Vec<u8>,
    table: Table,
    sets: u64,
    alloc: Global,
}

impl Model for Memory {
    ghost use Rattle.page_memory.specs.Contents.{Contents};
    ghost use Rattle.page_memory.specs.inner.Contents.{contents_code};
    ghost use Rattle.page_memory.specs.Memory.{word};
    ghost use Rattle.page_memory.specs.inner.Frames.{pages_in, IsTable};

    ghost Value = { Contents };

    ghost coded = { contents_code };

    ghost view = { λ m. record { pages = pages_in m.frames.items m.table.places; sets = m.sets } };

    ghost invariant = { λ m. IsTable m.frames.items m.table.places };
}

impl Memory {
    /// A memory that holds no page: each reads as zeros.
    pub fn empty(alloc: Global) -> Memory
        ensures { result ≡ record { pages = finite.empty; sets = 0 } }
    {
        Memory {
            frames: Vec::new(alloc),
            table: Table::new(alloc, BTreeMap::new(alloc)),
            sets: 0,
            alloc,
        }
    }

    /// How often `set`, `put` and `set_word` changed a page, up to 2^64 - 1, where the number stops. Running a list leaves
    /// it.
    pub fn sets(&self) -> u64
        ensures value { result ≡ self.now.sets }
        ensures valid { IsMemory self.now }
    {
        self.sets
    }

    /// Whether the page is held.
    pub fn held(&self, p: Page) -> bool
        ensures { IsTrue result ↔ IsHeld self.now p }
    {
        self.table.get(p).is_some()
    }

    /// The 4,096 bytes of a held page, lent and not copied. None exactly where the page is not held. It takes no
    /// memory.
    pub fn page(&self, p: Page) -> Option<&[u8]>
        ensures held { IsSome result ↔ IsHeld self.now p }
        ensures value { option_map (λ s. s.now) result ≡ finite.get self.now.pages p }
        ensures bytes { IfSome result (λ s. IsBlock 4096 s.now) }
    {
        match self.table.get(p) {
            Some(place) => Some(frame(&self.frames, place)),
            None => None,
        }
    }

    /// The page is held, and no other becomes so. What each page reads as is unchanged, after want of memory too.
    pub fn hold(&mut self, p: Page) -> Result<(), AllocError>
        ensures held { OnOk result (IsHeld self.new p) }
        ensures same { (q : ℕ) → at self.new q ≡ at self.old q }
        ensures sets { self.new.sets ≡ self.old.sets }
        ensures stay { (q : ℕ) → IsHeld self.old q → IsHeld self.new q }
        ensures only { (q : ℕ) → IsHeld self.new q → IsHeld self.old q ⊎ (q ≡ p) }
    {
        match self.table.get(p) {
            Some(_) => (),
            None => add_frame(&mut self.frames, &mut self.table, p, &[])?,
        }
        Ok(())
    }

    /// Each of these pages is held, and no other becomes so; room is made at once for those that were not. What each
    /// page reads as is unchanged, after want of memory too: some of the pages may be held then. This project's own.
    pub fn hold_all(&mut self, pages: &[Page]) -> Result<(), AllocError>
        ensures held { OnOk result (All (λ p. IsHeld self.new p) pages.now) }
        ensures same { (q : ℕ) → at self.new q ≡ at self.old q }
        ensures sets { self.new.sets ≡ self.old.sets }
        ensures stay { (q : ℕ) → IsHeld self.old q → IsHeld self.new q }
        ensures only { (q : ℕ) → IsHeld self.new q → IsHeld self.old q ⊎ Has q pages.now }
        // As their type says.
        ensures pages { All (λ p. p < 2 ^ 34) pages.now }
    {
        let missing = self.missing(pages);
        self.reserve(missing)?;
        for page in pages {
            self.hold(*page)?;
        }
        Ok(())
    }

    // How many of the pages are not held.
    fn missing(&self, pages: &[Page]) -> usize
        ensures pages { All (λ p. p < 2 ^ 34) pages.now }
    {
        let mut missing = 0;
        for page in pages {
            // for its clause: what every value of the type keeps
            let _number = page.number();
            if !self.held(*page) {
                missing += 1;
            }
        }
        missing
    }

    // Makes room for so many pages more to be held. Nothing that can be seen changes, after want of memory too.
    fn reserve(&mut self, pages: usize) -> Result<(), AllocError>
        ensures same { self.new ≡ self.old }
    {
        let held = self.frames.len();
        let more = pages.saturating_mul(SLOT).saturating_add(HEAD);
        self.frames
            .reserve_exact(room_for(held.saturating_add(more)) - held)
    }

    /// The page, which is held, becomes these at most 4,096 bytes, then zeros.
    pub fn set(&mut self, p: Page, bytes: &[u8])
        requires held { IsHeld self.old p }
        requires fits { length bytes.now ≤ 4096 }
        ensures value { self.new ≡ after_set self.old p (page_of bytes.now) }
        ensures stay { (q : ℕ) → IsHeld self.old q → IsHeld self.new q }
    {
        write_frame(&mut self.frames, &self.table, p, bytes);
        self.sets = self.sets.saturating_add(1);
    }

    /// The page is held, and becomes these at most 4,096 bytes, then zeros. After want of memory all is as before. This
    /// project's own.
    pub fn put(&mut self, p: Page, bytes: &[u8]) -> Result<(), AllocError>
        requires fits { length bytes.now ≤ 4096 }
        ensures value { OnOk result (self.new ≡ after_set self.old p (page_of bytes.now)) }
        ensures same { OnErr result (self.new ≡ self.old) }
    {
        match self.table.get(p) {
            Some(_) => write_frame(&mut self.frames, &self.table, p, bytes),
            None => add_frame(&mut self.frames, &mut self.table, p, bytes)?,
        }
        self.sets = self.sets.saturating_add(1);
        Ok(())
    }

    /// The eight bytes at address `a`, a multiple of 8 in a page that is held, become the little-endian number `v`.
    pub fn set_word(&mut self, a: u64, v: u64)
        requires inside { a < 2 ^ 46 }
        requires aligned { a % 8 ≡ 0 }
        requires held { IsHeld self.old (a / 4096) }
        ensures value { self.new ≡ with_word self.old a v }
        ensures stay { (q : ℕ) → IsHeld self.old q → IsHeld self.new q }
    {
        write_word(
            &mut self.frames,
            &self.table,
            Page::from_address(a),
            place_of_address(a),
            v,
        );
        self.sets = self.sets.saturating_add(1);
    }

    /// Page `d`, which is held, becomes what page `s` reads as.
    pub fn copy(&mut self, d: Page, s: Page)
        requires { IsHeld self.old d }
        ensures value { self.new ≡ with_page self.old d (at self.old s) }
        ensures stay { (q : ℕ) → IsHeld self.old q → IsHeld self.new q }
    {
        copy_frame(&mut self.frames, &self.table, d, s);
    }

    /// The copies `s` to `w`, `d` to `s`, `w` to `d`, in this order. All three pages are held; they may be equal.
    pub fn swap(&mut self, d: Page, s: Page, w: Page)
        requires d { IsHeld self.old d }
        requires s { IsHeld self.old s }
        requires w { IsHeld self.old w }
        ensures value { self.new ≡ swap_pages self.old d s w }
        ensures stay { (q : ℕ) → IsHeld self.old q → IsHeld self.new q }
    {
        if d == s || d == w || s == w {
            self.copy(w, s);
            self.copy(s, d);
            self.copy(d, w);
        } else {
            self.exchange_frames(d, s, w);
        }
    }

    fn exchange_frames(&mut self, d: Page, s: Page, w: Page)
        requires d { IsHeld self.old d }
        requires s { IsHeld self.old s }
        requires w { IsHeld self.old w }
        requires apart { (d ≢ s) × (d ≢ w) × (s ≢ w) }
        ensures value { self.new ≡ swap_pages self.old d s w }
        ensures stay { (q : ℕ) → IsHeld self.old q → IsHeld self.new q }
    {
        copy_frame(&mut self.frames, &self.table, w, s);
        exchange(&mut self.table, d, s);
    }

    /// The byte at an address below 2^46.
    pub fn byte(&self, a: u64) -> u8
        requires { a < 2 ^ 46 }
        ensures { result ≡ slice_index (at self.now (a / 4096)) (a % 4096) }
    {
        self.bytes(Page::from_address(a))[place_of_address(a)]
    }

    /// The little-endian number in the eight bytes at address `a`, a multiple of 8 below 2^46.
    #[tactic(auto, unfolding(crate::specs::Memory::word))]
    pub fn word(&self, a: u64) -> u64
        requires inside { a < 2 ^ 46 }
        requires aligned { a % 8 ≡ 0 }
        ensures { result ≡ word (at self.now) a }
    {
        LittleEndian::read_u64(&self.bytes(Page::from_address(a))[place_of_address(a)..])
    }

    /// Whether the page is these at most 4,096 bytes, then zeros.
    pub fn equals(&self, p: Page, bytes: &[u8]) -> bool
        requires { length bytes.now ≤ 4096 }
        ensures { IsTrue result ↔ (at self.now p ≡ page_of bytes.now) }
    {
        is_page_of(self.bytes(p), bytes)
    }

    /// Whether both memories read the same at the page.
    pub fn agrees(&self, other: &Memory, p: Page) -> bool
        ensures { IsTrue result ↔ (at self.now p ≡ at other.now p) }
    {
        self.bytes(p) == other.bytes(p)
    }

    /// The 4,096 bytes that a page reads as, held or not, lent and not copied. It takes no memory. This project's own.
    pub fn bytes(&self, p: Page) -> &[u8]
        ensures value { result.now ≡ at self.now p }
        ensures bytes { IsBlock 4096 result.now }
    {
        match self.page(p) {
            Some(bytes) => bytes,
            None => &ZERO_PAGE,
        }
    }
}

fn is_page_of(page: &[u8], bytes: &[u8]) -> bool
    requires whole { length page.now ≡ 4096 }
    requires fits { length bytes.now ≤ 4096 }
    ensures { IsTrue result ↔ (page.now ≡ page_of bytes.now) }
{
    let (front, back) = page.split_at(bytes.len());
    front == bytes && is_zero(back)
}

// Where in its page an address is.
fn place_of_address(a: u64) -> usize
    ensures { result ≡ a % 4096 }
{
    (a % PAGE_SIZE) as usize
}

impl Memory {
    /// The memory that a file spells, or the first fault of the bytes.
    pub fn read(alloc: Global, bytes: &[u8]) -> Result<Memory, MemFault>
        // What it is, or the first fault.
        ensures exact { Gives MemFault.Memory (λ m. m) result (reading bytes.now) }
        // The bytes are the file of what was read.
        ensures found { IfOk result (λ m. file m ≡ bytes.now) }
    {
        let table = file_table(alloc, bytes)?;
        let frames = copy_of(alloc, bytes)?;
        Ok(Memory {
            frames,
            table,
            sets: 0,
            alloc,
        })
    }

    /// As `read`, of bytes that are handed in: they become the memory's own, and no page is copied. This project's own.
    pub fn from_file(alloc: Global, bytes: Vec<u8>) -> Result<Memory, MemFault>
        ensures exact { Gives MemFault.Memory (λ m. m) result (reading bytes.items) }
        ensures found { IfOk result (λ m. file m ≡ bytes.items) }
    {
        let table = file_table(alloc, &bytes)?;
        Ok(Memory {
            frames: bytes,
            table,
            sets: 0,
            alloc,
        })
    }

    /// The file of the pages that are not all zeros.
    pub fn write(&self) -> Result<Vec<u8>, HeavyFault>
        ensures file { IfOk result (λ v. IsFileOf (stored_pages self.now) v.items) }
        ensures heavy { IfErr result (λ e. HasNoFile (stored_pages self.now) e) }
    {
        file_of(self.alloc, &self.frames, &self.table)
    }

    /// As `write`, of a memory that is given up: the file is made in the memory's own buffer, so that the bytes of the
    /// pages never lie in memory twice. After a refusal the memory is gone. This project's own.
    pub fn into_file(self) -> Result<Vec<u8>, HeavyFault>
        ensures file { IfOk result (λ v. IsFileOf (stored_pages self) v.items) }
        ensures heavy { IfErr result (λ e. HasNoFile (stored_pages self) e) }
    {
        let Memory {
            frames,
            table,
            sets: _,
            alloc,
        } = self;
        file_in_place(alloc, frames, &table)
    }
}
