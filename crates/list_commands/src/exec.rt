//! `exec`: runs the load that a record tells where it is accepted.

ghost use Rattle.std.specs.Prelude.{◌≡◌, if◌then◌else◌, string_bytes};
ghost use Rattle.load_states.specs.inner.Answers.{IsAcceptedAs};
ghost use Rattle.load_states.specs.States.{Load as LoadOf};
ghost use Rattle.file_commands.specs.Answers.{Meets};
ghost use Rattle.file_commands.specs.inner.Calls.{Makes, MakesOr, goods_of, call_answer};
ghost use Rattle.kexec_words.specs.declared.commands.Runs.TheVariants.{Once, Twice};
ghost use Rattle.kexec_words.specs.inner.Values.{exec_value, load_names_value};
ghost use Rattle.list_commands.specs.Exec.{RunsList, RefusesRun, executes, executes_list, lacks_swap_page, runs_of, exec_entry};
ghost use Rattle.list_commands.specs.Records.{load_files_of};

use crate::check::unaccepted_goods;
use crate::crash_exec::exec_in_place;
use crate::records::{LoadFiles, TakenLoad, take_load_files};
use command_parts::{
    MakeResult, Reason, Startup, TakeResult, memory_output, ran_text, run_accepted,
};
use file_commands::{Command, Goods, MakeFault, Stop, run};
use kexec_words::{Exec, LoadNames, Runs};
use kx_edge::{Shelf, Sink};
use kx_pages::Mode;
use list_checker::ListFault;
use load_states::{Accepted, Loaded};
use std::alloc::Global;

/// How `exec` is done: whether the list is to run twice, and the name of the output.
#[derive(Drop)]
pub(crate) struct RunLoad {
    pub(crate) twice: bool,
    pub(crate) out: String,
}

// A second run is asked for, and the record is in plain mode.
fn lacks_swap_page(twice: bool, mode: Mode) -> bool
    ensures { result ≡ lacks_swap_page twice mode }
{
    match mode {
        Mode::Plain => twice,
        Mode::Kept { swap: _ } => false,
    }
}

// How often a list is to run that can run more than once.
fn runs_by(twice: bool) -> Runs
    ensures { result ≡ (if twice then Twice else Once) }
{
    if twice { Runs::Twice } else { Runs::Once }
}

// Runs an accepted list, and makes the file of the memory after the last run.
fn run_goods(
    alloc: Global,
    accepted: Accepted,
    twice: bool,
    startup: Startup,
    out: String,
) -> MakeResult<Goods<ListFault>>
    ensures { (s : LoadOf) → IsAcceptedAs s accepted
        → MakesOr
        (λ g. RunsList (runs_of twice s.image.mode) s startup (string_bytes out) (goods_of g))
        (RefusesRun (runs_of twice s.image.mode) s) result }
{
    let ran = run_accepted(accepted, runs_by(twice));
    let text = ran_text(alloc, &ran, startup)?;
    let outputs = memory_output(alloc, ran.memory, out)?;
    Ok(Goods::done(outputs, text))
}

// Runs the list of a normal load where it is accepted, and makes the file of the memory after the last run.
fn exec_list(
    alloc: Global,
    files: LoadFiles,
    twice: bool,
    out: String,
) -> MakeResult<Goods<ListFault>>
    ensures { Makes (executes_list twice (string_bytes out)) files result }
{
    let image = files.image;
    if lacks_swap_page(twice, image.mode) {
        return Err(MakeFault::refused(Reason::NotKept));
    }
    let loaded = Loaded::from_files(alloc, files.memory, image, files.segments);
    match loaded.accept(alloc) {
        Ok(accepted) => run_goods(alloc, accepted, twice, files.startup, out),
        Err(refused) => unaccepted_goods(alloc, refused.why),
    }
}

impl Command<ListFault, Reason> for RunLoad {
    type Names = LoadNames;

    type Taken = TakenLoad;

    ghost use Rattle.list_commands.specs.declared.records.TakenLoad.{TakenLoad};

    ghost Inputs = { TakenLoad };

    ghost inputs = { λ f. f };

    ghost takes = { λ names. load_files_of (load_names_value names) };

    ghost makes = { λ e. executes e.twice (string_bytes e.out) };

    fn take<S: Shelf>(alloc: Global, names: LoadNames, shelf: &mut S) -> TakeResult<TakenLoad> {
        take_load_files(alloc, names, shelf)
    }

    fn make(self, alloc: Global, load: TakenLoad) -> MakeResult<Goods<ListFault>> {
        match load {
            TakenLoad::Normal(files) => exec_list(alloc, files, self.twice, self.out),
            TakenLoad::Crash(files) => exec_in_place(alloc, files, self.twice, self.out),
        }
    }
}

/// Runs `exec`: runs the load that a record tells where it is accepted.
pub fn run_exec<S: Shelf, O: Sink>(
    alloc: Global,
    words: Exec,
    shelf: &mut S,
    out: &mut O,
) -> Result<(), Stop<ListFault, Reason>>
    ensures { Meets S.Shelf O.Sink (exec_entry (exec_value words)).command shelf.old out.old
        (call_answer result) shelf.new out.new }
{
    let names = LoadNames {
        memory: words.memory,
        load_record: words.load_record,
    };
    let command = RunLoad {
        twice: words.twice,
        out: words.out,
    };
    run(alloc, names, command, shelf, out)
}
