//! Notes, and the text that lists them.

ghost use Rattle.std.specs.Prelude.{List, ◌≡◌, IfOk};
ghost use Rattle.std.specs.List.{list_any, position};
ghost use Rattle.kx_laws.specs.inner.Results.{Gives};
ghost use Rattle.crash_headers.specs.declared.fault.NoteFault.TheVariants.{Memory};
ghost use Rattle.crash_headers.specs.inner.Ranges.{AreRising};
ghost use Rattle.crash_headers.specs.declared.note.Note.{Note};
ghost use Rattle.crash_headers.specs.Notes.{lies_in, is_outside, note_from, note_of, line_onto, notes_reading};

use crate::fault::NoteFault;
use crate::ranges::{end_of, rising};
use kx_pages::ADDRESS_LIMIT;
use memory_map::Row;
use std::alloc::{AllocError, Global};
use text_lines::{LineReader, read_lines, two_numbers};

/// How many lines a text of notes can have.
const MOST_NOTES: u64 = 1024;

/// The bytes of memory that a processor leaves its notes in when it stops: `size` bytes from `start` on.
#[derive(Clone, Copy)]
pub struct Note {
    pub start: u64,
    pub size: u64,
}

impl Note {
    /// Its bytes are the range's.
    fn lies_in(self, range: &Row) -> bool
        ensures { result ≡ lies_in self range.now }
    {
        range.start <= self.start && u128::from(self.start) + u128::from(self.size) <= end_of(range)
    }

    /// Its bytes are those of one of the ranges, which rise: of the last that starts no later, if of any.
    fn lies_in_one(self, rising: &[Row]) -> bool
        requires { AreRising rising.now }
        ensures { result ≡ list_any (lies_in self) rising.now }
    {
        let count = rising.partition_point(|range| range.start <= self.start);
        match count.checked_sub(1) {
            Some(last) => self.lies_in(&rising[last]),
            None => false,
        }
    }

    /// It lies in none of the ranges, which rise.
    fn is_outside(self, rising: &[Row]) -> bool
        requires { AreRising rising.now }
        ensures { result ≡ is_outside rising.now self }
    {
        !self.lies_in_one(rising)
    }
}

/// The first note that lies in none of the ranges, which rise.
fn first_outside_rising(notes: &[Note], rising: &[Row]) -> Option<usize>
    requires { AreRising rising.now }
    ensures { result ≡ position (is_outside rising.now) notes.now }
{
    notes.iter().position(|note| note.is_outside(rising))
}

/// The first note that lies in none of the ranges. They are put in order once, and each note is then found by halving.
pub(crate) fn first_outside(
    alloc: Global,
    notes: &[Note],
    ranges: &[Row],
) -> Result<Option<usize>, AllocError>
    ensures { IfOk result (λ r. r ≡ position (is_outside ranges.now) notes.now) }
{
    let rising = rising(alloc, ranges)?;
    Ok(first_outside_rising(notes, &rising))
}

/// The note of a start and a size. None where it has no byte, or one at the limit of addresses or above.
fn note_from(start: u64, size: u64) -> Option<Note>
    ensures { result ≡ note_from start size }
{
    let end = u128::from(start) + u128::from(size);
    if size == 0 || end > u128::from(ADDRESS_LIMIT) {
        None
    } else {
        Some(Note { start, size })
    }
}

/// The note of a line. None where it has not the form of a note line.
#[tactic(auto, unfolding(crate::specs::Notes::note_of))]
fn note_of(line: &[u8]) -> Option<Note>
    ensures { result ≡ note_of line.now }
{
    let (start, size) = two_numbers(line)?;
    note_from(start, size)
}

/// The notes of the lines so far.
#[derive(Drop)]
struct NoteReader {
    notes: Vec<Note>,
}

impl LineReader for NoteReader {
    type Fault = NoteFault;

    ghost Value = { List Note };

    ghost value = { λ r. r.notes.items };

    ghost adds = { line_onto };

    ghost memory = { Memory };

    #[tactic(auto, unfolding(crate::specs::Notes::line_onto))]
    fn take_line(&mut self, line: u64, text: &[u8]) -> Result<(), NoteFault> {
        if line > MOST_NOTES {
            return Err(NoteFault::BadLine { line });
        }
        match note_of(text) {
            Some(note) => {
                self.notes.push(note)?;
                Ok(())
            }
            None => Err(NoteFault::BadLine { line }),
        }
    }
}

/// The notes of a text, in its order, or the first line that is none.
///
/// A line is `start size`, two hexadecimal numbers with one space between. BadLine comes where it has not this form, or
/// where start plus size is over 2^46, or size is 0, or it is the 1,025th line (this project's own form).
pub fn read_notes(alloc: Global, text: &[u8]) -> Result<Vec<Note>, NoteFault>
    ensures { Gives Memory (λ v. v.items) result (notes_reading text.now) }
{
    let mut reader = NoteReader {
        notes: Vec::new(alloc),
    };
    match read_lines(text, &mut reader) {
        Ok(()) => Ok(reader.notes),
        Err(fault) => Err(fault),
    }
}
