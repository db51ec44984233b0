//! The buffer in which the frames lie, at the places that the table says.

ghost use Rattle.std.specs.Prelude.{◌≡◌, ℕ, ◌+◌, ◌<◌, ◌≤◌, ◌≢◌, ◌++◌, length, IsSome, OnOk, OnErr, List, None, Some};
ghost use Rattle.std.specs.FinMap as finite;
ghost use Rattle.std.specs.Ordering.{nat_cmp};
ghost use Rattle.std.specs.BTreeMap as tree;
ghost use Rattle.std.specs.Vec.{vec_capacity};
ghost use Rattle.kx_pages.specs.Bytes.{page_of};
ghost use Rattle.page_memory.specs.inner.Contents.{page_with_word};
ghost use Rattle.page_memory.specs.inner.Frames.{frame_in, put_frame, put_word_in, pages_in, AreExchanged, HaveSamePages, IsAdded, IsCopied, IsSet, IsTable, IsWordSet};

use crate::layout::{FIRST_FRAME, FRAME_SIZE, SLOT};
use crate::table::Table;
use byteorder::{ByteOrder, LittleEndian};
use kx_pages::{Page, ZERO_PAGE};
use std::alloc::AllocError;

/// The frame that begins at a place of the buffer.
#[tactic(auto, unfolding(crate::specs::inner::Frames::frame_in))]
pub(crate) fn frame(frames: &[u8], place: usize) -> &[u8]
    requires { place + 4096 ≤ length frames.now }
    ensures { result.now ≡ frame_in frames.now place }
{
    let (_, rest) = frames.split_at(place);
    let (frame, _) = rest.split_at(FRAME_SIZE);
    frame
}

// Fills a frame with bytes, then zeros.
#[tactic(auto, unfolding(crate::specs::inner::Frames::put_frame))]
fn fill(frames: &mut [u8], place: usize, bytes: &[u8])
    requires inside { place + 4096 ≤ length frames.old }
    requires fits { length bytes.now ≤ 4096 }
    ensures { frames.new ≡ put_frame frames.old place (page_of bytes.now) }
{
    let (_, rest) = frames.split_at_mut(place);
    let (frame, _) = rest.split_at_mut(FRAME_SIZE);
    fill_frame(frame, bytes);
}

fn fill_frame(frame: &mut [u8], bytes: &[u8])
    requires whole { length frame.old ≡ 4096 }
    requires fits { length bytes.now ≤ 4096 }
    ensures { frame.new ≡ page_of bytes.now }
{
    let (front, back) = frame.split_at_mut(bytes.len());
    front.copy_from_slice(bytes);
    back.fill(0);
}

// Writes a word at a place of the frame that begins at `start`.
#[tactic(auto, unfolding(crate::specs::inner::Frames::put_frame, crate::specs::inner::Frames::frame_in))]
fn fill_word(frames: &mut [u8], start: usize, place: usize, v: u64)
    requires inside { start + 4096 ≤ length frames.old }
    requires fits { place + 8 ≤ 4096 }
    ensures { frames.new ≡ put_word_in frames.old start place v }
{
    let (_, rest) = frames.split_at_mut(start);
    let (frame, _) = rest.split_at_mut(FRAME_SIZE);
    put_word(frame, place, v);
}

/// Writes a word at a place.
pub(crate) fn put_word(frame: &mut [u8], place: usize, v: u64)
    requires { place + 8 ≤ length frame.old }
    ensures { frame.new ≡ page_with_word frame.old place v }
{
    let (_, rest) = frame.split_at_mut(place);
    LittleEndian::write_u64(rest, v);
}

/// Page p, which has a frame, becomes these at most 4,096 bytes, then zeros.
pub(crate) fn write_frame(frames: &mut Vec<u8>, table: &Table, p: Page, bytes: &[u8])
    requires old { IsTable frames.old.items table.now.places }
    requires held { IsSome (finite.get (pages_in frames.old.items table.now.places) p) }
    requires fits { length bytes.now ≤ 4096 }
    ensures value { IsSet frames.old.items frames.new.items table.now.places p (page_of bytes.now) }
    ensures table { IsTable frames.new.items table.now.places }
{
    match table.get(p) {
        Some(place) => fill(frames, place, bytes),
        None => unreachable!(),
    }
}

/// The eight bytes at a place of page p, which has a frame, become the little-endian number v.
pub(crate) fn write_word(frames: &mut Vec<u8>, table: &Table, p: Page, place: usize, v: u64)
    requires old { IsTable frames.old.items table.now.places }
    requires held { IsSome (finite.get (pages_in frames.old.items table.now.places) p) }
    requires fits { place + 8 ≤ 4096 }
    ensures value { IsWordSet frames.old.items frames.new.items table.now.places p place v }
    ensures table { IsTable frames.new.items table.now.places }
{
    match table.get(p) {
        Some(start) => fill_word(frames, start, place, v),
        None => unreachable!(),
    }
}

// The frame at `to` becomes what the one at `from` is. They are one frame, or have no byte in common.
fn move_frame(frames: &mut [u8], to: usize, from: usize)
    requires to { to + 4096 ≤ length frames.old }
    requires from { from + 4096 ≤ length frames.old }
    requires up { from < to → from + 4096 ≤ to }
    requires down { to < from → to + 4096 ≤ from }
    ensures { frames.new ≡ put_frame frames.old to (frame_in frames.old from) }
{
    if from < to {
        let (low, high) = frames.split_at_mut(to);
        fill(high, 0, frame(low, from));
    } else if to < from {
        let (low, high) = frames.split_at_mut(from);
        fill(low, to, frame(high, 0));
    }
}

/// Page d, which has a frame, becomes what page s reads as.
pub(crate) fn copy_frame(frames: &mut Vec<u8>, table: &Table, d: Page, s: Page)
    requires old { IsTable frames.old.items table.now.places }
    requires held { IsSome (finite.get (pages_in frames.old.items table.now.places) d) }
    ensures value { IsCopied frames.old.items frames.new.items table.now.places d s }
    ensures table { IsTable frames.new.items table.now.places }
{
    match table.get(s) {
        Some(from) => move_frame(frames, place_of(table, d), from),
        None => write_frame(frames, table, d, &[]),
    }
}

// What a slot, and the buffer's head before the first slot, have in front of a frame until a file is made in the buffer.
static HEADS: [u8; FIRST_FRAME] = [0; FIRST_FRAME];

/// Adds a page, which becomes these at most 4,096 bytes, then zeros, in a slot of its own behind the others. Room is made
/// first, so that a refusal leaves both as they were.
pub(crate) fn add_frame(
    frames: &mut Vec<u8>,
    table: &mut Table,
    p: Page,
    bytes: &[u8],
) -> Result<(), AllocError>
    requires old { IsTable frames.old.items table.old.places }
    requires absent { finite.get (pages_in frames.old.items table.old.places) p ≡ None }
    requires fits { length bytes.now ≤ 4096 }
    ensures ok { OnOk result (IsAdded frames.old.items table.old.places
        frames.new.items table.new.places p (page_of bytes.now)) }
    ensures err { OnErr result
        (HaveSamePages frames.old.items table.old.places frames.new.items table.new.places) }
    ensures table { IsTable frames.new.items table.new.places }
{
    // for its clause: what every value of the type keeps
    let _number = p.number();
    let place = FIRST_FRAME + SLOT * table.len();
    let heads = &HEADS[..place - frames.len()];
    frames.reserve(heads.len() + FRAME_SIZE)?;
    table.insert(p, place)?;
    append(frames, heads);
    append(frames, bytes);
    append(frames, &ZERO_PAGE[bytes.len()..]);
    Ok(())
}

// Appends bytes for which room was made.
fn append(frames: &mut Vec<u8>, bytes: &[u8])
    requires { length frames.old.items + length bytes.now ≤ vec_capacity frames.old }
    ensures items { frames.new.items ≡ frames.old.items ++ bytes.now }
    ensures capacity { vec_capacity frames.old ≤ vec_capacity frames.new }
{
    match frames.extend_from_slice(bytes) {
        Ok(()) => (),
        Err(_) => unreachable!(),
    }
}

// Where the frame of a page begins that has one.
fn place_of(table: &Table, p: Page) -> usize
    requires { IsSome (tree.get nat_cmp table.now.places p) }
    ensures { tree.get nat_cmp table.now.places p ≡ Some result }
{
    match table.get(p) {
        Some(place) => place,
        None => unreachable!(),
    }
}

/// The frames of two pages change places: no byte moves.
pub(crate) fn exchange(table: &mut Table, d: Page, s: Page)
    requires d { IsSome (tree.get nat_cmp table.old.places d) }
    requires s { IsSome (tree.get nat_cmp table.old.places s) }
    requires apart { d ≢ s }
    ensures value { AreExchanged table.old.places table.new.places d s }
    ensures table { (xs : List ℕ) → IsTable xs table.old.places → IsTable xs table.new.places }
{
    let i = place_of(table, d);
    let j = place_of(table, s);
    table.change(s, i);
    table.change(d, j);
}
