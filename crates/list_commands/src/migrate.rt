//! `migrate`: writes a load record anew, as version 2.

ghost use Rattle.std.specs.Prelude.{◌≡◌, IfOk, string_bytes};
ghost use Rattle.file_commands.specs.Answers.{Meets};
ghost use Rattle.file_commands.specs.inner.Calls.{call_answer};
ghost use Rattle.load_record.specs.File.{Record};
ghost use Rattle.kexec_words.specs.inner.Values.{migrate_value};
ghost use Rattle.list_commands.specs.Records.{load_record_file};
ghost use Rattle.list_commands.specs.Migrate.{migrates, segments_line, migrate_entry};

use crate::read_record::ReadRecord;
use crate::records::take_digested_record;
use command_parts::{MakeResult, Reason, TakeResult, one_file};
use command_table::Role;
use file_commands::{Command, Goods, Stop, run};
use kexec_words::Migrate;
use kx_edge::{Shelf, Sink};
use list_checker::ListFault;
use std::alloc::{AllocError, Global};

/// How `migrate` is done: the name of the output.
#[derive(Drop)]
pub(crate) struct RewriteRecord {
    pub(crate) out: String,
}

// How many segments a record has.
fn segments_line(alloc: Global, count: usize) -> Result<String, AllocError>
    ensures { IfOk result (λ s. string_bytes s ≡ segments_line count) }
{
    format!(in alloc; "record segments {count}\n")
}

impl Command<ListFault, Reason> for RewriteRecord {
    type Names = String;

    type Taken = ReadRecord;

    ghost Inputs = { Record };

    ghost inputs = { λ r. r.load_record };

    ghost takes = { λ name. load_record_file (string_bytes name) };

    ghost makes = { λ m. migrates (string_bytes m.out) };

    fn take<S: Shelf>(alloc: Global, name: String, shelf: &mut S) -> TakeResult<ReadRecord> {
        let load_record = take_digested_record(alloc, name, shelf)?;
        Ok(ReadRecord { load_record })
    }

    fn make(self, alloc: Global, taken: ReadRecord) -> MakeResult<Goods<ListFault>> {
        let text = segments_line(alloc, taken.load_record.record().segments.count())?;
        let bytes = taken.load_record.into_file()?;
        let outputs = one_file(alloc, Role::RecordOut, self.out, bytes)?;
        Ok(Goods::done(outputs, text))
    }
}

/// Runs `migrate`: writes a load record anew, as version 2.
pub fn run_migrate<S: Shelf, O: Sink>(
    alloc: Global,
    words: Migrate,
    shelf: &mut S,
    out: &mut O,
) -> Result<(), Stop<ListFault, Reason>>
    ensures { Meets S.Shelf O.Sink (migrate_entry (migrate_value words)).command shelf.old out.old
        (call_answer result) shelf.new out.new }
{
    let command = RewriteRecord { out: words.out };
    run(alloc, words.load_record, command, shelf, out)
}
