//! `dump`: the words of the list that a record tells, and its segments.

ghost use Rattle.std.specs.Prelude.{◌≡◌, ◌++◌, true, false, IfOk, OnOk, string_bytes};
ghost use Rattle.std.specs.List.{flat_map};
ghost use Rattle.sha2.specs.Sha256.{sha256};
ghost use Rattle.file_commands.specs.Answers.{Meets};
ghost use Rattle.file_commands.specs.inner.Calls.{Makes, Takes, call_answer};
ghost use Rattle.kexec_words.specs.inner.Values.{load_names_value};
ghost use Rattle.list_commands.specs.Dump.{dumps, head_text, segment_line, walk_text, word_line, word_lines, dump_entry};
ghost use Rattle.list_commands.specs.inner.Views.{dump_inputs};
ghost use Rattle.list_commands.specs.Records.{load_files_of};

use crate::records::take_digested_record;
use command_parts::{MakeResult, Reason, TakeResult, take_memory};
use file_commands::{Command, Goods, Stop, run};
use kexec_words::LoadNames;
use kx_edge::{Shelf, Sink};
use kx_pages::Item;
use list_checker::{ListFault, Walk, head_reason, walk};
use load_record::DigestedRecord;
use page_memory::Memory;
use segments::Segment;
use std::alloc::{AllocError, Global};

/// How `dump` is done: its words say nothing of it.
#[derive(Drop)]
pub(crate) struct PrintLoad;

/// What `dump` took: the memory, and the record with the digests that are printed.
#[derive(Drop)]
pub(crate) struct DumpInputs {
    pub(crate) memory: Memory,
    pub(crate) load_record: DigestedRecord,
}

// The line of a word.
#[tactic(auto, unfolding(crate::specs::Dump::word_line))]
fn word_line(alloc: Global, number: usize, word: u64) -> Result<String, AllocError>
    ensures { IfOk result (λ s. string_bytes s ≡ word_line number word) }
{
    let address = 4096 * (word / 4096);
    match Item::of_word(word) {
        Ok(Item::Link(_)) => format!(in alloc; "{number} link {address:x}\n"),
        Ok(Item::Destination(_)) => format!(in alloc; "{number} destination {address:x}\n"),
        Ok(Item::Source(_)) => format!(in alloc; "{number} source {address:x}\n"),
        Ok(Item::Done(_)) => format!(in alloc; "{number} done\n"),
        Err(_) => Ok(String::new(alloc)),
    }
}

// Adds the lines of words, which are numbered from 0.
fn push_words(alloc: Global, text: &mut String, words: &[u64]) -> Result<(), AllocError>
    ensures { OnOk result
        (string_bytes text.new ≡ string_bytes text.old ++ word_lines 0 words.now) }
{
    for (number, word) in words.iter().enumerate() {
        text.push_str(&word_line(alloc, number, *word)?)?;
    }
    Ok(())
}

// Adds the lines of a walk, and why it ends where its last word cannot be followed.
fn push_walk(alloc: Global, text: &mut String, walk: Walk) -> Result<(), AllocError>
    ensures { OnOk result
        (string_bytes text.new ≡ string_bytes text.old ++ walk_text walk.words.items walk.fault) }
{
    let Walk { mut words, fault } = walk;
    if let Some(fault) = fault {
        words.truncate(fault.word as usize);
        push_words(alloc, text, &words)?;
        text.push_str(&format!(in alloc; "{fault}\n")?)?;
    } else {
        push_words(alloc, text, &words)?;
    }
    Ok(())
}

// The line of a segment with this digest.
#[tactic(auto, unfolding(crate::specs::Dump::segment_line))]
fn segment_line(alloc: Global, segment: &Segment, digest: &[u8; 32]) -> Result<String, AllocError>
    requires { digest.now ≡ sha256 segment.now.bytes }
    ensures { IfOk result (λ s. string_bytes s ≡ segment_line segment.now) }
{
    let digest = hex::encode(alloc, *digest)?;
    format!(in alloc;
        "segment {:x} memsz {:x} bufsz {} sha256 {digest}\n",
        segment.mem,
        segment.memsz,
        segment.bytes.len()
    )
}

// Adds the lines of a record's segments.
fn push_segments(
    alloc: Global,
    text: &mut String,
    load_record: &DigestedRecord,
) -> Result<(), AllocError>
    ensures { OnOk result (string_bytes text.new
        ≡ string_bytes text.old ++ flat_map segment_line load_record.now.segments) }
{
    let segments = &load_record.record().segments;
    for i in 0..segments.count() {
        let line = segment_line(alloc, segments.segment(i), load_record.digest(i))?;
        text.push_str(&line)?;
    }
    Ok(())
}

// The line of the head of a crash load.
fn head_text(alloc: Global, head: u64) -> Result<String, AllocError>
    ensures { IfOk result (λ s. string_bytes s ≡ head_text head) }
{
    match head_reason(head) {
        None => word_line(alloc, 0, head),
        Some(why) => {
            let fault = ListFault { word: 0, why };
            format!(in alloc; "{fault}\n")
        }
    }
}

// Takes the memory file, then the file of the load record.
fn take_dump<S: Shelf>(alloc: Global, names: LoadNames, shelf: &mut S) -> TakeResult<DumpInputs>
    ensures { Takes S.Shelf (load_files_of (load_names_value names)) dump_inputs shelf.old result
        shelf.new }
{
    let memory = take_memory(alloc, names.memory, shelf)?;
    let load_record = take_digested_record(alloc, names.load_record, shelf)?;
    Ok(DumpInputs {
        memory,
        load_record,
    })
}

// Makes the lines of the list and of the segments of a normal load. The lines of many words take as much as their memory
// does, which is given up before they are made.
fn dump_list(alloc: Global, dump: DumpInputs) -> MakeResult<Goods<ListFault>>
    requires { dump.load_record.crash ≡ false }
    ensures { Makes dumps (dump_inputs dump) result }
{
    let walk = walk(alloc, &dump.memory, dump.load_record.record().image.head)?;
    drop(dump.memory);
    let mut text = String::new(alloc);
    push_walk(alloc, &mut text, walk)?;
    push_segments(alloc, &mut text, &dump.load_record)?;
    Ok(Goods::done(Vec::new(alloc), text))
}

// Makes the lines of the head and of the segments of a crash load.
fn dump_in_place(alloc: Global, dump: &DumpInputs) -> MakeResult<Goods<ListFault>>
    requires { dump.now.load_record.crash ≡ true }
    ensures { Makes dumps (dump_inputs dump.now) result }
{
    let mut text = head_text(alloc, dump.load_record.record().image.head)?;
    push_segments(alloc, &mut text, &dump.load_record)?;
    Ok(Goods::done(Vec::new(alloc), text))
}

impl Command<ListFault, Reason> for PrintLoad {
    type Names = LoadNames;

    type Taken = DumpInputs;

    ghost use Rattle.list_commands.specs.declared.records.TakenLoad.{TakenLoad};

    ghost Inputs = { TakenLoad };

    ghost inputs = { dump_inputs };

    ghost takes = { λ names. load_files_of (load_names_value names) };

    ghost makes = { λ _. dumps };

    fn take<S: Shelf>(alloc: Global, names: LoadNames, shelf: &mut S) -> TakeResult<DumpInputs> {
        take_dump(alloc, names, shelf)
    }

    // Makes the lines of the load.
    fn make(self, alloc: Global, dump: DumpInputs) -> MakeResult<Goods<ListFault>> {
        if dump.load_record.record().crash {
            dump_in_place(alloc, &dump)
        } else {
            dump_list(alloc, dump)
        }
    }
}

/// Runs `dump`: says the words of the list that a record tells, and its segments.
pub fn run_dump<S: Shelf, O: Sink>(
    alloc: Global,
    words: LoadNames,
    shelf: &mut S,
    out: &mut O,
) -> Result<(), Stop<ListFault, Reason>>
    ensures { Meets S.Shelf O.Sink (dump_entry (load_names_value words)).command shelf.old out.old
        (call_answer result) shelf.new out.new }
{
    run(alloc, words, PrintLoad, shelf, out)
}
