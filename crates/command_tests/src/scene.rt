//! Files in memory, and a command that is run over them.

use kexec_main::{Status, kexec};
use kx_edge::{MemoryShelf, MemorySink, Shelf, ShelfFault};
use std::alloc::{AllocError, Global};

/// A piece of a file.
#[derive(Clone, Copy)]
pub(crate) enum Piece {
    /// These bytes.
    Bytes(&'static [u8]),
    /// A byte, so many times.
    Repeated(u8, usize),
    /// These numbers, of eight bytes each.
    Numbers(&'static [u64]),
    /// A page of a memory: its number, and its bytes, which are these and then zeros.
    Page(u64, &'static [u8]),
    /// A page that begins with these words of a list.
    List(u64, &'static [u64]),
}

/// A file.
pub(crate) type Pieces = &'static [Piece];

/// Files, and their names.
pub(crate) type Files = &'static [(&'static str, Pieces)];

/// What each of `OUTPUTS` has, or None where it is not there.
pub(crate) type Outputs = [Option<Pieces>; 3];

/// The names that may be written.
const OUTPUTS: [&str; 3] = ["o", "r", "x"];

/// The most bytes that an output can have.
const ROOM: usize = 10_000_000;

/// The most bytes that a text can have.
const TEXT_ROOM: usize = 20_000;

/// A command that is to be done, and what must come of it.
#[derive(Clone, Copy)]
pub(crate) struct Step {
    /// Its words.
    pub(crate) line: &'static str,
    /// The text that is said.
    pub(crate) said: &'static str,
    /// The outputs that are there then, of this command and of those before it.
    pub(crate) outputs: Outputs,
}

// Adds numbers to a file.
fn push_numbers(file: &mut Vec<u8>, numbers: &[u64]) -> Result<(), AllocError> {
    for number in numbers {
        file.extend_from_slice(&number.to_le_bytes())?;
    }
    Ok(())
}

// Adds zeros up to this length.
fn pad(file: &mut Vec<u8>, length: usize) -> Result<(), AllocError> {
    if file.len() < length {
        file.resize(length, 0)?;
    }
    Ok(())
}

// Adds a page to the file of a memory.
fn push_page(file: &mut Vec<u8>, number: u64, bytes: &[u8]) -> Result<(), AllocError> {
    let end = file.len().saturating_add(8 + 4096);
    file.extend_from_slice(&number.to_le_bytes())?;
    file.extend_from_slice(bytes)?;
    pad(file, end)
}

fn push_list(file: &mut Vec<u8>, number: u64, words: &[u64]) -> Result<(), AllocError> {
    let end = file.len().saturating_add(8 + 4096);
    file.extend_from_slice(&number.to_le_bytes())?;
    push_numbers(file, words)?;
    pad(file, end)
}

fn push_piece(file: &mut Vec<u8>, piece: Piece) -> Result<(), AllocError> {
    match piece {
        Piece::Bytes(bytes) => file.extend_from_slice(bytes),
        Piece::Repeated(byte, count) => file.resize(file.len().saturating_add(count), byte),
        Piece::Numbers(numbers) => push_numbers(file, numbers),
        Piece::Page(number, bytes) => push_page(file, number, bytes),
        Piece::List(number, words) => push_list(file, number, words),
    }
}

/// The bytes of a file.
pub(crate) fn join(alloc: Global, pieces: &[Piece]) -> Result<Vec<u8>, AllocError> {
    let mut file = Vec::new(alloc);
    for piece in pieces {
        push_piece(&mut file, *piece)?;
    }
    Ok(file)
}

/// The names and the bytes of files.
pub(crate) fn make_files(
    alloc: Global,
    files: Files,
) -> Result<Vec<(String, Vec<u8>)>, AllocError> {
    let mut all = Vec::new(alloc);
    for (name, pieces) in files {
        all.push((String::from_str(alloc, name)?, join(alloc, pieces)?))?;
    }
    Ok(all)
}

/// A shelf with these files, and with room for the outputs. The calls with these numbers fail.
pub(crate) fn shelf(
    alloc: Global,
    files: Vec<(String, Vec<u8>)>,
    failing: &[u64],
) -> Result<MemoryShelf, AllocError> {
    let mut shelf = MemoryShelf::new(alloc, files, failing.to_vec(alloc)?);
    for name in OUTPUTS {
        shelf.reserve(name, ROOM)?;
    }
    Ok(shelf)
}

/// The words of a line.
pub(crate) fn words(alloc: Global, line: &str) -> Result<Vec<String>, AllocError> {
    let mut words = Vec::new(alloc);
    for word in line.split_whitespace() {
        words.push(String::from_str(alloc, word)?)?;
    }
    Ok(words)
}

/// How the command ended over this shelf, and what was said.
pub(crate) fn run(
    alloc: Global,
    line: &str,
    shelf: &mut MemoryShelf,
) -> Result<(Status, MemorySink), AllocError> {
    let words = words(alloc, line)?;
    let mut sink = MemorySink::new(alloc, Vec::new(alloc));
    sink.reserve(TEXT_ROOM)?;
    let status = kexec(alloc, &words, shelf, &mut sink);
    Ok((status, sink))
}

// The file of this name, or None where there is none.
fn file_of(
    alloc: Global,
    shelf: &mut MemoryShelf,
    name: &str,
) -> Result<Option<Vec<u8>>, AllocError> {
    match shelf.take(alloc, name, ROOM) {
        Ok(bytes) => Ok(Some(bytes)),
        Err(ShelfFault::Failed) => Ok(None),
        Err(ShelfFault::Memory) => Err(AllocError),
    }
}

fn has(
    alloc: Global,
    shelf: &mut MemoryShelf,
    name: &str,
    wanted: Option<Pieces>,
) -> Result<bool, AllocError> {
    match (file_of(alloc, shelf, name)?, wanted) {
        (Some(file), Some(pieces)) => Ok(file == join(alloc, pieces)?),
        (None, None) => Ok(true),
        _ => Ok(false),
    }
}

/// Whether the shelf has these files.
pub(crate) fn has_files(
    alloc: Global,
    shelf: &mut MemoryShelf,
    files: Files,
) -> Result<bool, AllocError> {
    for (name, pieces) in files {
        if !has(alloc, shelf, name, Some(*pieces))? {
            return Ok(false);
        }
    }
    Ok(true)
}

/// Whether the shelf has these outputs, and no other.
pub(crate) fn has_outputs(
    alloc: Global,
    shelf: &mut MemoryShelf,
    outputs: Outputs,
) -> Result<bool, AllocError> {
    for (name, wanted) in OUTPUTS.into_iter().zip(outputs) {
        if !has(alloc, shelf, name, wanted)? {
            return Ok(false);
        }
    }
    Ok(true)
}
