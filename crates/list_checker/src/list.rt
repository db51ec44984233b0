//! Checking a list in a memory.

ghost use Rattle.std.specs.Prelude.{◌+◌, ◌<◌, IfOk, IfErr};
ghost use Rattle.segments.specs.inner.Rules.{IsBare};
ghost use Rattle.list_checker.specs.inner.Checked.{IsAccept, IsCheckFault};

use crate::earlier::{Accept, Earlier};
use crate::fault::{CheckFault, ListFault};
use crate::reasons::{following, judge};
use kx_pages::{Image, Item};
use page_memory::Memory;
use segments::Segments;
use std::alloc::Global;

// The walk reads the list as it stands before the run, and the run reads it while it writes. Both meet the same words
// because of what is tested at each word, and not only at the end:
//
// - No pair writes a link page that came before (LinkSpoiled, tested at the pair), and no link page that comes is one that
//   a pair has written (tested at the link). So each word is still there when the run comes to it.
// - No pair's source was written by an earlier pair (SourceSpoiled), and with context preserved no page is met by two
//   pairs (PairsMeet). So what a move brings is what stood at its source before the run, which is what the segments want
//   of the destination (WrongBytes).
// - No destination is written twice (TwiceWritten), and at the done word each wanted page was one (Missing): each has
//   what it is to have, and keeps it.
//
// It ends: each word stands at a place of its own in the head and the link pages, a link page comes once (LinkAgain), and
// each page has 511 words before the one that leads on (RunsOff).
/// Whether the list of the image is accepted for the segments in this memory, in the image's mode: what is told of it, or
/// its first fault. A run of an accepted list leaves each page of the segments what it is to have. Each word is
/// read once; look-ups are in ordered sets.
pub fn check(
    alloc: Global,
    memory: &Memory,
    image: &Image,
    segments: &Segments,
) -> Result<Accept, CheckFault>
    // The list is accepted, and this is its walk.
    ensures accepted { IfOk result (λ a. IsAccept memory.now segments.now image.now a) }
    // It is not, and this is its first fault.
    ensures fault { IfErr result (λ e. IsCheckFault memory.now segments.now image.now e) }
    // The segments meet the rules.
    ensures valid { IsBare segments.now }
{
    let mut earlier = Earlier::new(alloc, image.mode);
    let mut place: Option<u64> = None;
    let mut w = image.head;
    let mut words = 0;
    'words: loop {
        let item = match judge(memory, image, segments, &earlier, place, w) {
            Ok(item) => item,
            Err(why) => return Err(CheckFault::List {
                fault: ListFault { word: words, why },
            }),
        };
        words += 1;
        if let Item::Done(_) = item {
            return Ok(earlier.accept(words));
        }
        earlier.add(&item)?;
        let next = following(place, &item);
        place = Some(next);
        w = memory.word(next);
    }
}
