//! `exec` of a crash load: it lies in its place, so that its run moves nothing.

ghost use Rattle.std.specs.Prelude.{string_bytes};
ghost use Rattle.page_memory.specs.Contents.{at};
ghost use Rattle.file_commands.specs.inner.Calls.{Makes, MakesOr, goods_of};
ghost use Rattle.list_commands.specs.CrashExec.{RunsInPlace, executes_in_place};
ghost use Rattle.command_parts.specs.Outputs.{HasNoFile};

use crate::check::fault_goods;
use crate::records::CrashFiles;
use command_parts::{MakeResult, Reason, Startup, crash_ran_text, memory_output};
use file_commands::{Goods, MakeFault};
use list_checker::ListFault;
use load_states::{AcceptedCrash, CrashLoaded};
use std::alloc::Global;

// Runs an accepted crash load of so many pages, and makes the file of the memory after the run.
fn run_in_place(
    alloc: Global,
    accepted: AcceptedCrash,
    pages: u64,
    startup: Startup,
    out: String,
) -> MakeResult<Goods<ListFault>>
    ensures { MakesOr
        (λ g. RunsInPlace (at accepted.memory) pages startup (string_bytes out) (goods_of g))
        (HasNoFile (at accepted.memory)) result }
{
    let ran = accepted.exec();
    let text = crash_ran_text(alloc, &ran, pages, startup)?;
    let outputs = memory_output(alloc, ran.into_memory(), out)?;
    Ok(Goods::done(outputs, text))
}

/// Runs a crash load where it is accepted, and makes the file of the memory after the run.
pub(crate) fn exec_in_place(
    alloc: Global,
    files: CrashFiles,
    twice: bool,
    out: String,
) -> MakeResult<Goods<ListFault>>
    ensures { Makes (executes_in_place twice (string_bytes out)) files result }
{
    if twice {
        return Err(MakeFault::refused(Reason::NotKept));
    }
    let pages = files.segments.pages();
    let loaded = CrashLoaded::from_parts(files.memory, files.head, files.segments);
    match loaded.accept() {
        Ok(accepted) => run_in_place(alloc, accepted, pages, files.startup, out),
        Err(refused) => fault_goods(alloc, refused.1),
    }
}
