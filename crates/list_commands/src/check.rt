//! `check`: whether the load that a record tells is accepted.

ghost use Rattle.std.specs.Prelude.{◌≡◌, IfOk, IfErr};
ghost use Rattle.list_checker.specs.declared.fault.ListFault.{ListFault as SpecFault};
ghost use Rattle.list_checker.specs.declared.fault.CheckFault.TheVariants as faults;
ghost use Rattle.file_commands.specs.Answers.{Meets};
ghost use Rattle.file_commands.specs.inner.Calls.{Makes, goods_of, call_answer};
ghost use Rattle.kexec_words.specs.inner.Values.{load_names_value};
ghost use Rattle.list_commands.specs.Check.{IsFaultLine, checks, checks_in_place, checks_list, check_entry};
ghost use Rattle.list_commands.specs.Records.{load_files_of};

use crate::records::{CrashFiles, LoadFiles, TakenLoad, take_load_files};
use command_parts::{ListCounts, MakeResult, Reason, TakeResult, accepted_line, crash_line};
use file_commands::{Command, Goods, MakeFault, Stop, run};
use kexec_words::LoadNames;
use kx_edge::{Shelf, Sink};
use list_checker::{CheckFault, ListFault, check, check_crash};
use std::alloc::Global;

/// How `check` is done: its words say nothing of it.
#[derive(Drop)]
pub(crate) struct CheckList;

/// What is made of a load that is not accepted: its first fault's line alone, and the fault.
pub(crate) fn fault_goods(alloc: Global, fault: ListFault) -> MakeResult<Goods<ListFault>>
    ensures line { IfOk result (λ g. IsFaultLine fault (goods_of g)) }
    ensures memory { IfErr result (λ e. e ≡ MakeFault.Memory) }
{
    Ok(Goods {
        outputs: Vec::new(alloc),
        text: format!(in alloc; "{fault}\n")?,
        fault: Some(fault),
    })
}

/// The same of a list that was not found to be accepted.
pub(crate) fn unaccepted_goods(alloc: Global, why: CheckFault) -> MakeResult<Goods<ListFault>>
    ensures line { IfOk result (λ g.
        (f : SpecFault) × (why ≡ faults.List f) × IsFaultLine f (goods_of g)) }
    ensures memory { IfErr result (λ e. e ≡ MakeFault.Memory) }
{
    match why {
        CheckFault::Memory => Err(MakeFault::Memory),
        CheckFault::List { fault } => fault_goods(alloc, fault),
    }
}

// Checks the list of a normal load, and makes the line that tells of it.
fn check_list(alloc: Global, files: &LoadFiles) -> MakeResult<Goods<ListFault>>
    ensures { Makes checks_list files.now result }
{
    match check(alloc, &files.memory, &files.image, &files.segments) {
        Err(why) => unaccepted_goods(alloc, why),
        Ok(accept) => {
            let text = accepted_line(alloc, ListCounts::of_accept(&accept))?;
            Ok(Goods::done(Vec::new(alloc), text))
        }
    }
}

// Checks a crash load, and makes the line that tells of it.
fn check_in_place(alloc: Global, files: &CrashFiles) -> MakeResult<Goods<ListFault>>
    ensures { Makes checks_in_place files.now result }
{
    match check_crash(&files.memory, files.head, &files.segments) {
        Err(fault) => fault_goods(alloc, fault),
        Ok(()) => {
            let text = crash_line(alloc, files.segments.pages())?;
            Ok(Goods::done(Vec::new(alloc), text))
        }
    }
}

impl Command<ListFault, Reason> for CheckList {
    type Names = LoadNames;

    type Taken = TakenLoad;

    ghost use Rattle.list_commands.specs.declared.records.TakenLoad.{TakenLoad};

    ghost Inputs = { TakenLoad };

    ghost inputs = { λ f. f };

    ghost takes = { λ names. load_files_of (load_names_value names) };

    ghost makes = { λ _. checks };

    fn take<S: Shelf>(alloc: Global, names: LoadNames, shelf: &mut S) -> TakeResult<TakenLoad> {
        take_load_files(alloc, names, shelf)
    }

    // Checks the load, and makes the line that tells of it.
    fn make(self, alloc: Global, load: TakenLoad) -> MakeResult<Goods<ListFault>> {
        match load {
            TakenLoad::Normal(files) => check_list(alloc, &files),
            TakenLoad::Crash(files) => check_in_place(alloc, &files),
        }
    }
}

/// Runs `check`: says whether the load that a record tells is accepted.
pub fn run_check<S: Shelf, O: Sink>(
    alloc: Global,
    words: LoadNames,
    shelf: &mut S,
    out: &mut O,
) -> Result<(), Stop<ListFault, Reason>>
    ensures { Meets S.Shelf O.Sink (check_entry (load_names_value words)).command shelf.old out.old
        (call_answer result) shelf.new out.new }
{
    run(alloc, words, CheckList, shelf, out)
}
