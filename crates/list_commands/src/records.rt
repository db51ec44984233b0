//! The files of a load are taken, each with its limit, and read: its memory and its record.

ghost use Rattle.std.specs.Prelude.{◌≡◌, string_bytes, IfOk};
ghost use Rattle.kx_laws.specs.inner.Cuts.{IsCutAt};
ghost use Rattle.file_commands.specs.Files.{whole_file};
ghost use Rattle.file_commands.specs.inner.Calls.{Takes, bytes_of};
ghost use Rattle.kexec_words.specs.inner.Values.{load_names_value};
ghost use Rattle.list_commands.specs.Records.{load_by, load_files_of, load_record_file, record_limit};
ghost use Rattle.load_record.specs.inner.File.{IsWritable};

use command_parts::{InputFault, Startup, TakeResult, take_memory};
use command_table::Role;
use file_commands::{FileParts, take_apart};
use kexec_words::LoadNames;
use kx_edge::Shelf;
use kx_pages::Image;
use load_record::{DigestedRecord, FIRST_BYTES, LoadRecord};
use page_memory::Memory;
use segments::Segments;
use std::alloc::Global;

/// The most bytes of a load record: its head, the heads and digests of sixteen segments, and the bytes of 65,536 pages.
const RECORD_LIMIT: usize = 268_436_448;

// Takes the file of a load record: its front, and what follows in the buffer that becomes its first segment's.
fn take_parts<S: Shelf>(alloc: Global, name: String, shelf: &mut S) -> TakeResult<FileParts>
    ensures takes { Takes S.Shelf (whole_file record_limit (string_bytes name)) bytes_of shelf.old
        result shelf.new }
    ensures apart { IfOk result (λ f. IsCutAt 152 f.front.items f.rest.items) }
{
    take_apart(alloc, Role::Record, name, FIRST_BYTES, RECORD_LIMIT, shelf)
}

/// Takes the file of a load record and reads it.
pub(crate) fn take_record<S: Shelf>(
    alloc: Global,
    name: String,
    shelf: &mut S,
) -> TakeResult<LoadRecord>
    ensures { Takes S.Shelf (load_record_file (string_bytes name)) (λ r. r) shelf.old result
        shelf.new }
{
    let FileParts { front, rest, .. } = take_parts(alloc, name, shelf)?;
    let read = LoadRecord::from_file(alloc, &front, rest);
    read.map_err(|fault| InputFault::Rec { fault }.stop())
}

/// As `take_record`, with the digests of the record's segments.
pub(crate) fn take_digested_record<S: Shelf>(
    alloc: Global,
    name: String,
    shelf: &mut S,
) -> TakeResult<DigestedRecord>
    ensures takes { Takes S.Shelf (load_record_file (string_bytes name)) (λ r. r) shelf.old result
        shelf.new }
    ensures writable { IfOk result IsWritable }
{
    let FileParts { front, rest, .. } = take_parts(alloc, name, shelf)?;
    let read = DigestedRecord::from_file(alloc, &front, rest);
    read.map_err(|fault| InputFault::Rec { fault }.stop())
}

/// The files of a normal load, as they were taken: the memory, and what the record tells of the list.
#[derive(Drop)]
pub struct LoadFiles {
    pub memory: Memory,
    pub image: Image,
    pub segments: Segments,
    pub startup: Startup,
}

/// The files of a crash load, as they were taken: the memory, in which the kernel lies in its place, and what the record
/// tells of it. Its list is the head alone.
#[derive(Drop)]
pub struct CrashFiles {
    pub memory: Memory,
    pub head: u64,
    pub segments: Segments,
    pub startup: Startup,
}

/// A load that was taken, by the kind of its record. No command looks at the kind again.
#[derive(Drop)]
pub enum TakenLoad {
    Normal(LoadFiles),
    Crash(CrashFiles),
}

// The load that the files tell.
fn load_by(memory: Memory, load_record: LoadRecord) -> TakenLoad
    ensures { result ≡ load_by memory load_record }
{
    let startup = Startup::of_record(&load_record);
    if !load_record.crash {
        return TakenLoad::Normal(LoadFiles {
            memory,
            image: load_record.image,
            segments: load_record.segments,
            startup,
        });
    }
    TakenLoad::Crash(CrashFiles {
        memory,
        head: load_record.image.head,
        segments: load_record.segments,
        startup,
    })
}

/// Takes the memory file, then the file of the load record.
pub(crate) fn take_load_files<S: Shelf>(
    alloc: Global,
    names: LoadNames,
    shelf: &mut S,
) -> TakeResult<TakenLoad>
    ensures { Takes S.Shelf (load_files_of (load_names_value names)) (λ f. f) shelf.old result
        shelf.new }
{
    let memory = take_memory(alloc, names.memory, shelf)?;
    let load_record = take_record(alloc, names.load_record, shelf)?;
    Ok(load_by(memory, load_record))
}
