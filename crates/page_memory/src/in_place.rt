//! The memory file, made in the buffer in which the frames lie.
//!
//! The buffer is laid out as a file: a head of 16 bytes, and slots of 4,104 bytes, each 8 bytes and a frame. So the
//! frame of each page that the file has is brought into the slot that it has there, by exchanges of two frames; then
//! the numbers and the head are written, and what lies behind is cut off.
//!
//! While frames are exchanged, `slots` says in which slot the frame of each page lies, and `owners` says of each slot
//! whose frame it has: both are kept, so that an exchange is never preceded by a search.

ghost use Rattle.std.specs.Prelude.{◌≡◌, ◌≤◌, ◌<◌, ◌+◌, ◌-◌, ◌*◌, ◌++◌, ℕ, length, take, set, slice_index, IfOk, IfErr, OnOk, ◌==◌};
ghost use Rattle.std.specs.BTreeMap.{IsOrdered};
ghost use Rattle.std.specs.List.{IsDistinct};
ghost use Rattle.std.specs.Ordering.{nat_cmp};
ghost use Rattle.page_memory.specs.File.{file_page_limit, text_of};
ghost use Rattle.page_memory.specs.inner.File.{HasNoFile, IsFileOf};
ghost use Rattle.page_memory.specs.inner.Frames.{IsTable, frame_in, put_frame, stored_in, trade_frames};
ghost use Rattle.page_memory.specs.inner.InPlace.{AreArranged, AreGathered, AreInSlots, AreOwned, AreSlotsOf, StillHold, slot_entries, slot_texts, slots_of};

use crate::buffer::put_word;
use crate::fault::HeavyFault;
use crate::file::{file_pages, head_of};
use crate::layout::{FIRST_FRAME, FRAME_SIZE, HEAD, SLOT};
use crate::table::Table;
use kx_pages::Page;
use std::alloc::{AllocError, Global};

// A frame of the buffer and 4,096 bytes that lie elsewhere change places.
#[tactic(auto, unfolding(crate::specs::inner::Frames::put_frame, crate::specs::inner::Frames::frame_in))]
fn trade(frames: &mut [u8], place: usize, other: &mut [u8])
    requires inside { place + 4096 ≤ length frames.old }
    requires whole { length other.old ≡ 4096 }
    ensures frames { frames.new ≡ put_frame frames.old place other.old }
    ensures other { other.new ≡ frame_in frames.old place }
{
    let (_, rest) = frames.split_at_mut(place);
    let (frame, _) = rest.split_at_mut(FRAME_SIZE);
    frame.swap_with_slice(other);
}

// Two frames change places.
fn exchange(frames: &mut [u8], low: usize, high: usize)
    requires apart { low + 4096 ≤ high }
    requires inside { high + 4096 ≤ length frames.old }
    ensures { frames.new ≡ trade_frames frames.old low high }
{
    let (front, back) = frames.split_at_mut(high);
    let (frame, _) = back.split_at_mut(FRAME_SIZE);
    trade(front, low, frame);
}

// Notes the slot of a page; nothing, where this is no page of the file.
fn note(slots: &mut [usize], page: usize, slot: usize)
    ensures { slots.new ≡ set slots.old page slot }
{
    if page < slots.len() {
        slots[page] = slot;
    }
}

// Brings the frame of page k into slot k. The frame that lay there goes where that of page k was.
fn settle(frames: &mut [u8], slots: &mut [usize], owners: &mut [usize], k: usize)
    requires page { k < length slots.old }
    requires few { length slots.old ≤ length owners.old }
    requires room { 4104 * length owners.old ≤ length frames.old - 16 }
    requires owned { AreOwned slots.old owners.old k }
    ensures owned { AreOwned slots.new owners.new (k + 1) }
    ensures holds { StillHold frames.old owners.old frames.new owners.new (length slots.old) }
{
    let from = slots[k];
    if k < from {
        exchange(frames, FIRST_FRAME + SLOT * k, FIRST_FRAME + SLOT * from);
        note(slots, owners[k], from);
        note(slots, k, k);
        owners.swap(k, from);
    }
}

// Brings the frame of each page into its slot.
fn arrange(frames: &mut [u8], slots: &mut [usize], owners: &mut [usize])
    requires few { length slots.old ≤ length owners.old }
    requires room { 4104 * length owners.old ≤ length frames.old - 16 }
    requires owned { AreOwned slots.old owners.old 0 }
    ensures { AreArranged frames.old owners.old frames.new (length slots.old) }
{
    for k in 0..slots.len() {
        settle(frames, slots, owners, k);
    }
}

// In which slots the frames of these pages lie.
fn slots_of(alloc: Global, pages: &[(Page, usize)]) -> Result<Vec<usize>, AllocError>
    ensures { IfOk result (λ v. v.items ≡ slots_of pages.now) }
{
    let mut slots = Vec::new(alloc);
    slots.reserve_exact(pages.len())?;
    for (_, place) in pages {
        slots.push(place / SLOT)?;
    }
    Ok(slots)
}

// Whose frame lies in each slot: the number of pages, where none of theirs does.
fn owners_of(alloc: Global, slots: &[usize], count: usize) -> Result<Vec<usize>, AllocError>
    requires inside { (j : ℕ) → j < length slots.now → slice_index slots.now j < count }
    requires apart { IsDistinct ◌==◌ slots.now }
    ensures owned { IfOk result (λ v. AreOwned slots.now v.items 0) }
    ensures back { IfOk result (λ v. AreSlotsOf slots.now v.items) }
    ensures length { IfOk result (λ v. length v.items ≡ count) }
{
    let mut owners = vec![in alloc; slots.len(); count]?;
    for j in 0..slots.len() {
        owners[slots[j]] = j;
    }
    Ok(owners)
}

// Brings the frames of these pages into the first slots, in their order. `count` is the number of all slots.
fn gather(
    alloc: Global,
    frames: &mut [u8],
    pages: &[(Page, usize)],
    count: usize,
) -> Result<(), AllocError>
    requires slots { AreInSlots frames.old pages.now }
    requires few { length pages.now ≤ count }
    requires room { length frames.old - 16 ≡ 4104 * count }
    ensures { OnOk result (AreGathered frames.old frames.new pages.now) }
{
    let mut slots = slots_of(alloc, pages)?;
    let mut owners = owners_of(alloc, &slots, count)?;
    arrange(frames, &mut slots, &mut owners);
    Ok(())
}

// Writes in front of each slot's frame the number of its page.
fn write_numbers(frames: &mut [u8], pages: &[(Page, usize)])
    requires { length frames.old ≡ 16 + 4104 * length pages.now }
    ensures { frames.new ≡ take 16 frames.old ++ slot_texts frames.old pages.now }
{
    let mut at = HEAD;
    for (p, _) in pages {
        put_word(frames, at, p.number());
        at += SLOT;
    }
}

// Makes a file of slots that have the frames of these pages.
fn write_heads(frames: &mut [u8], pages: &[(Page, usize)])
    requires long { length frames.old ≡ 16 + 4104 * length pages.now }
    requires few { length pages.now ≤ file_page_limit }
    ensures { frames.new ≡ text_of (slot_entries frames.old 0 pages.now) }
{
    write_numbers(frames, pages);
    let (head, _) = frames.split_at_mut(HEAD);
    head.copy_from_slice(head_of(pages.len() as u64).bytes());
}

/// The file of the pages that are not all zeros, made in the buffer of their frames. It takes no memory but some bytes a
/// page.
pub(crate) fn file_in_place(
    alloc: Global,
    mut frames: Vec<u8>,
    table: &Table,
) -> Result<Vec<u8>, HeavyFault>
    requires { IsTable frames.items table.now.places }
    ensures file { IfOk result (λ v. IsFileOf (stored_in frames.items table.now.places) v.items) }
    ensures ordered { IsOrdered nat_cmp table.now.places }
    ensures heavy { IfErr result (λ e. HasNoFile (stored_in frames.items table.now.places) e) }
{
    let pages = file_pages(alloc, &frames, table)?;
    gather(alloc, &mut frames, &pages, table.len())?;
    frames.resize(HEAD + SLOT * pages.len(), 0)?;
    write_heads(&mut frames, &pages);
    Ok(frames)
}
