//! The headers as one buffer.

ghost use Rattle.std.specs.Prelude.{◌≡◌, ◌+◌, ◌*◌, ◌-◌, ◌^◌, ◌++◌, ◌≤◌, map, min, length, OnOk, IfOk};
ghost use Rattle.kx_laws.specs.inner.Results.{Gives};
ghost use Rattle.memory_map.specs.inner.Rows.{AreBelow};
ghost use Rattle.memory_map.specs.Maps.{core_ranges};
ghost use Rattle.crash_headers.specs.declared.fault.CrashFault.TheVariants.{Memory};
ghost use Rattle.elf_headers.specs.FileHeader.{core_header};
ghost use Rattle.elf_headers.specs.inner.FileHeader.{IsHeaderReadBack};
ghost use Rattle.elf_headers.specs.ProgramHeader.{row_text, table_text};
ghost use Rattle.elf_headers.specs.inner.ProgramHeader.{IsRowReadBack, AreReadBack};
ghost use Rattle.crash_headers.specs.ProgramHeader.{note_row, load_row};
ghost use Rattle.crash_headers.specs.Headers.{count_of, rows, headers, length_for, headers_or_fault};
ghost use Rattle.crash_headers.specs.inner.Headers.{headers_length, HasIdentification, HasFileHeader, HasProgramHeaders};

use crate::fault::CrashFault;
use crate::note::{Note, first_outside};
use crate::program_header::{load_row, note_row};
use elf_headers::{FILE_HEADER_SIZE, FileHeader, PROGRAM_HEADER_SIZE, ProgramHeader};
use memory_map::{Map, Row};
use std::alloc::{AllocError, Global};

/// The most program headers (this project's own limit).
const MOST_HEADERS: usize = 1024;

/// The bytes of a file header and of a program header.
const FILE_HEADER: usize = FILE_HEADER_SIZE as usize;

const PROGRAM_HEADER: usize = PROGRAM_HEADER_SIZE as usize;

/// Puts a program header behind the others.
fn put_row(out: &mut Vec<u8>, row: ProgramHeader) -> Result<(), AllocError>
    ensures text { OnOk result (out.new.items ≡ out.old.items ++ row_text row) }
    ensures back { IsRowReadBack row }
{
    out.extend_from_slice(row.block().bytes())?;
    Ok(())
}

/// Puts a PT_NOTE for each note behind the others.
fn put_notes(out: &mut Vec<u8>, notes: &[Note]) -> Result<(), AllocError>
    ensures text { OnOk result
        (out.new.items ≡ out.old.items ++ table_text (map note_row notes.now)) }
    ensures back { OnOk result (AreReadBack (map note_row notes.now)) }
{
    for note in notes {
        put_row(out, note_row(*note))?;
    }
    Ok(())
}

/// Puts a PT_LOAD for each range behind the others.
fn put_loads(out: &mut Vec<u8>, ranges: &[Row]) -> Result<(), AllocError>
    requires { AreBelow ranges.now }
    ensures text { OnOk result
        (out.new.items ≡ out.old.items ++ table_text (map load_row ranges.now)) }
    ensures back { OnOk result (AreReadBack (map load_row ranges.now)) }
{
    for range in ranges {
        put_row(out, load_row(*range))?;
    }
    Ok(())
}

/// The headers of these notes and ranges, in one buffer of their length.
#[tactic(auto, unfolding(crate::specs::Headers::headers))]
fn headers(alloc: Global, notes: &[Note], ranges: &[Row]) -> Result<Vec<u8>, AllocError>
    requires few { length notes.now + length ranges.now ≤ 1024 }
    requires below { AreBelow ranges.now }
    ensures text { IfOk result (λ v. v.items ≡ headers notes.now ranges.now) }
    ensures first { OnOk result (IsHeaderReadBack (core_header (count_of notes.now ranges.now))) }
    ensures back { OnOk result (AreReadBack (rows notes.now ranges.now)) }
{
    let count = notes.len() + ranges.len();
    let mut out = Vec::with_capacity(alloc, FILE_HEADER + PROGRAM_HEADER * count)?;
    out.extend_from_slice(FileHeader::core(count as u16).block().bytes())?;
    put_notes(&mut out, notes)?;
    put_loads(&mut out, ranges)?;
    Ok(out)
}

/// The headers for a memory map and these notes, or why there are none.
///
/// TooManyRanges comes exactly where there are more than 1,024 notes and core ranges together; otherwise NotesOutside
/// exactly where a note does not lie inside one core range, with the first. Memory comes only where memory ran out.
pub fn make(alloc: Global, map: &Map, notes: &[Note]) -> Result<Vec<u8>, CrashFault>
    ensures exact { Gives Memory (λ v. v.items) result
        (headers_or_fault notes.now (core_ranges map.now)) }
    ensures length { IfOk result
        (λ v. length v.items ≡ headers_length notes.now (core_ranges map.now)) }
    // What its bytes read as.
    ensures identification { IfOk result (λ v. HasIdentification v.items) }
    ensures file_header { IfOk result
        (λ v. HasFileHeader (count_of notes.now (core_ranges map.now)) v.items) }
    ensures program_headers { IfOk result
        (λ v. HasProgramHeaders (rows notes.now (core_ranges map.now)) v.items) }
{
    let ranges = map.core_ranges();
    if notes.len() > MOST_HEADERS || ranges.len() > MOST_HEADERS - notes.len() {
        let count = notes.len() as u64 + ranges.len() as u64;
        return Err(CrashFault::TooManyRanges { count });
    }
    match first_outside(alloc, notes, ranges)? {
        Some(i) => Err(CrashFault::NotesOutside { i }),
        None => {
            let out = headers(alloc, notes, ranges)?;
            Ok(out)
        }
    }
}

/// How many bytes the headers for a memory map and so many notes have, also where `make` refuses: 64, and 56 for each
/// note and each core range, or 2^64 - 1 where this is more.
pub fn length(map: &Map, notes: usize) -> u64
    ensures { result ≡ min (2 ^ 64 - 1) (length_for notes (core_ranges map.now)) }
{
    let count = notes as u128 + map.core_ranges().len() as u128;
    (64 + 56 * count).min(u128::from(u64::MAX)) as u64
}
