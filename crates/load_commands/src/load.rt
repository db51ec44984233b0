//! `load`: loads a kernel and writes its load record.

ghost use Rattle.std.specs.Prelude.{◌≡◌, List, string_bytes, IfOk, if◌then◌else◌};
ghost use Rattle.kx_pages.specs.declared.image.Wish.TheVariants.{Kept, Plain};
ghost use Rattle.kx_pages.specs.declared.item.Item.{Item};
ghost use Rattle.page_memory.specs.Contents.{at};
ghost use Rattle.segments.specs.Values.{want};
ghost use Rattle.kx_pages.specs.Modes.{swap_page};
ghost use Rattle.list_checker.specs.Walk.{IsAccepted};
ghost use Rattle.load_record.specs.File.{record_file};
ghost use Rattle.file_commands.specs.Answers.{Meets};
ghost use Rattle.file_commands.specs.inner.Calls.{file_of, call_answer};
ghost use Rattle.kexec_words.specs.inner.Limits.{HasParts};
ghost use Rattle.kexec_words.specs.inner.Values.{inputs_value, load_value};
ghost use Rattle.command_parts.specs.Outputs.{IsReadBack};
ghost use Rattle.load_commands.specs.Inputs.{LoadInputs as Inputs, load_inputs};
ghost use Rattle.load_commands.specs.Load.{loads, load_entry};
ghost use Rattle.load_commands.specs.inner.Told.{IsToldText};
ghost use Rattle.load_commands.specs.inner.Views.{inputs_of, kernel_record};

use crate::inputs::take_inputs;
use crate::load_inputs::{InputNames, LoadInputs};
use crate::loading::{LoadedKernel, load_request};
use command_parts::{ListCounts, MakeResult, Reason, TakeResult, load_lines, memory_output};
use command_table::Role;
use file_commands::{Command, File, Goods, Stop, run};
use kexec_words::Load;
use kx_edge::{Shelf, Sink};
use kx_pages::{Start, Wish};
use list_checker::{CheckFault, ListFault, check};
use load_states::Loaded;
use page_memory::Memory;
use std::alloc::{AllocError, Global};

/// How `load` is done: whether context is to be preserved, and the names of the outputs.
#[derive(Drop)]
pub(crate) struct RecordLoad {
    pub(crate) wish: Wish,
    pub(crate) out: String,
    pub(crate) load_record: String,
}

// The wish of `load`, with or without `--kept`.
fn kept_wish(kept: bool) -> Wish
    ensures { result ≡ (if kept then Kept else Plain) }
{
    if kept { Wish::Kept } else { Wish::Plain }
}

// What is said of a load whose list is accepted.
fn loaded_text(alloc: Global, loaded: &Loaded, start: &Start) -> Result<String, AllocError>
    requires { (is : List Item)
        × IsAccepted (at loaded.now.memory) (want loaded.now.segments) loaded.now.image.head
        loaded.now.image.control (swap_page loaded.now.image.mode) is }
    ensures { IfOk result (λ s. IsToldText loaded.now start.now (string_bytes s)) }
{
    let image = loaded.image();
    match check(alloc, loaded.memory(), &image, loaded.segments()) {
        Ok(accept) => Ok(load_lines(alloc, ListCounts::of_accept(&accept), &image, start)?),
        Err(CheckFault::Memory) => Err(AllocError),
        Err(CheckFault::List { .. }) => unreachable!(),
    }
}

// The record of a load, as a file of this name, and the memory that it was of.
fn record_output(
    alloc: Global,
    kernel: LoadedKernel,
    name: String,
) -> Result<(Memory, File), AllocError>
    ensures memory { IfOk result (λ r. r.0 ≡ kernel.loaded.memory) }
    ensures record { IfOk result (λ r. file_of r.1
        ≡ (string_bytes name, record_file (kernel_record kernel))) }
    ensures read_back { IfOk result (λ r. IsReadBack (kernel_record kernel)) }
{
    let (memory, _, image, segments) = kernel.loaded.parts();
    let record = kernel.startup.into_record(false, image, segments);
    let role = Role::RecordOut;
    let bytes = record.into_file(alloc)?;
    Ok((memory, File { role, name, bytes }))
}

impl Command<ListFault, Reason> for RecordLoad {
    type Names = InputNames;

    type Taken = LoadInputs;

    ghost Inputs = { Inputs };

    ghost inputs = { inputs_of };

    ghost takes = { λ n. load_inputs n.image (inputs_value n.inputs) };

    ghost makes = { λ c. loads c.wish (string_bytes c.out) (string_bytes c.load_record) };

    fn take<S: Shelf>(alloc: Global, names: InputNames, shelf: &mut S) -> TakeResult<LoadInputs> {
        take_inputs(alloc, names, shelf)
    }

    // Loads the kernel, and makes the file of the memory after the load and its record.
    fn make(self, alloc: Global, load: LoadInputs) -> MakeResult<Goods<ListFault>> {
        let kernel = load_request(alloc, load, self.wish)?;
        let text = loaded_text(alloc, &kernel.loaded, &kernel.startup.start)?;
        let (memory, output) = record_output(alloc, kernel, self.load_record)?;
        let mut outputs = memory_output(alloc, memory, self.out)?;
        outputs.push(output)?;
        Ok(Goods::done(outputs, text))
    }
}

/// Runs `load`: loads a kernel and writes its load record. A memory map is named as for `boot`.
pub fn run_load<S: Shelf, O: Sink>(
    alloc: Global,
    words: Load,
    shelf: &mut S,
    out: &mut O,
) -> Result<(), Stop<ListFault, Reason>>
    requires { HasParts (inputs_value words.inputs) words.image }
    ensures { Meets S.Shelf O.Sink (load_entry (load_value words)).command shelf.old out.old
        (call_answer result) shelf.new out.new }
{
    let names = InputNames {
        image: words.image,
        inputs: words.inputs,
    };
    let command = RecordLoad {
        wish: kept_wish(words.kept),
        out: words.out,
        load_record: words.load_record,
    };
    run(alloc, names, command, shelf, out)
}
