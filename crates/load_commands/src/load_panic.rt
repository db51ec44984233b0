//! `load-panic`: puts a crash kernel in its place and writes its load record.

ghost use Rattle.std.specs.Prelude.{◌≡◌, length, string_bytes, IfOk};
ghost use Rattle.segments.specs.Values.{pages};
ghost use Rattle.load_record.specs.File.{record_file};
ghost use Rattle.file_commands.specs.Answers.{Meets};
ghost use Rattle.file_commands.specs.inner.Calls.{file_of, call_answer};
ghost use Rattle.kexec_words.specs.inner.Values.{crash_inputs_value, load_panic_value};
ghost use Rattle.load_commands.specs.inner.Views.{crash_inputs_of, crash_record};
ghost use Rattle.command_parts.specs.Outputs.{IsReadBack};
ghost use Rattle.load_commands.specs.CrashInputs.{CrashInputs as Inputs, crash_inputs};
ghost use Rattle.load_commands.specs.LoadPanic.{loads_panic, load_panic_entry};
ghost use Rattle.command_parts.specs.Texts.{crash_lines};

use crate::crash_loading::{CrashKernel, load_in_place};
use crate::inputs::take_crash_inputs;
use crate::load_inputs::{CrashInputs, CrashNames};
use command_parts::{MakeResult, Reason, TakeResult, crash_lines, memory_output};
use command_table::Role;
use file_commands::{Command, File, Goods, Stop, run};
use kexec_words::LoadPanic;
use kx_edge::{Shelf, Sink};
use kx_pages::{Image, Mode, Page};
use list_checker::ListFault;
use page_memory::Memory;
use std::alloc::{AllocError, Global};

/// How `load-panic` is done: the names of the outputs.
#[derive(Drop)]
pub(crate) struct RecordCrashLoad {
    pub(crate) out: String,
    pub(crate) load_record: String,
}

// What is said of a crash load, its record, as a file of this name, and the memory that it is of.
fn record_output(
    alloc: Global,
    kernel: CrashKernel,
    name: String,
) -> Result<(Memory, String, File), AllocError>
    ensures memory { IfOk result (λ r. r.0 ≡ kernel.loaded.memory) }
    ensures text { IfOk result (λ r. string_bytes r.1
        ≡ crash_lines (length (pages kernel.loaded.segments)) kernel.startup.start) }
    ensures record { IfOk result (λ r. file_of r.2
        ≡ (string_bytes name, record_file (crash_record kernel))) }
    ensures read_back { IfOk result (λ r. IsReadBack (crash_record kernel)) }
{
    let (memory, head, segments) = kernel.loaded.parts();
    let text = crash_lines(alloc, segments.pages(), &kernel.startup.start)?;
    let image = Image {
        head,
        mode: Mode::Plain,
        control: Page::new(0).unwrap(),
    };
    let record = kernel.startup.into_record(true, image, segments);
    let role = Role::RecordOut;
    let bytes = record.into_file(alloc)?;
    Ok((memory, text, File { role, name, bytes }))
}

impl Command<ListFault, Reason> for RecordCrashLoad {
    type Names = CrashNames;

    type Taken = CrashInputs;

    ghost Inputs = { Inputs };

    ghost inputs = { crash_inputs_of };

    ghost takes = { λ n. crash_inputs (crash_inputs_value n.inputs) (string_bytes n.map) };

    ghost makes = { λ c. loads_panic (string_bytes c.out) (string_bytes c.load_record) };

    fn take<S: Shelf>(alloc: Global, names: CrashNames, shelf: &mut S) -> TakeResult<CrashInputs> {
        take_crash_inputs(alloc, names, shelf)
    }

    // Puts the kernel in its place, and makes the file of the memory after the load and its record.
    fn make(self, alloc: Global, load: CrashInputs) -> MakeResult<Goods<ListFault>> {
        let kernel = load_in_place(alloc, load)?;
        let (memory, text, output) = record_output(alloc, kernel, self.load_record)?;
        let mut outputs = memory_output(alloc, memory, self.out)?;
        outputs.push(output)?;
        Ok(Goods::done(outputs, text))
    }
}

/// Runs `load-panic`: puts a crash kernel in its place and writes its load record.
pub fn run_load_panic<S: Shelf, O: Sink>(
    alloc: Global,
    words: LoadPanic,
    shelf: &mut S,
    out: &mut O,
) -> Result<(), Stop<ListFault, Reason>>
    ensures { Meets S.Shelf O.Sink (load_panic_entry (load_panic_value words)).command shelf.old
        out.old
        (call_answer result) shelf.new out.new }
{
    let names = CrashNames {
        inputs: words.inputs,
        map: words.map,
    };
    let command = RecordCrashLoad {
        out: words.out,
        load_record: words.load_record,
    };
    run(alloc, names, command, shelf, out)
}
