//! `boot`: loads a kernel and runs it.

ghost use Rattle.std.specs.Prelude.{◌≡◌, string_bytes};
ghost use Rattle.file_commands.specs.Answers.{Meets};
ghost use Rattle.file_commands.specs.inner.Calls.{call_answer};
ghost use Rattle.load_commands.specs.Boot.{boots, boot_entry};
ghost use Rattle.load_commands.specs.Inputs.{LoadInputs as Inputs, load_inputs};
ghost use Rattle.load_commands.specs.inner.Views.{inputs_of};
ghost use Rattle.command_parts.specs.Runs.{wish_of};
ghost use Rattle.kexec_words.specs.inner.Limits.{HasParts};
ghost use Rattle.kexec_words.specs.inner.Values.{boot_value, inputs_value};

use crate::inputs::take_inputs;
use crate::load_inputs::{InputNames, LoadInputs};
use crate::loading::load_request;
use command_parts::{MakeResult, Reason, TakeResult, memory_output, ran_text, run_loaded};
use file_commands::{Command, Goods, Stop, run};
use kexec_words::{Boot, Runs};
use kx_edge::{Shelf, Sink};
use kx_pages::Wish;
use list_checker::ListFault;
use std::alloc::Global;

/// How `boot` is done: how often the list is to run, and the name of the output.
#[derive(Drop)]
pub(crate) struct BootKernel {
    pub(crate) runs: Option<Runs>,
    pub(crate) out: String,
}

// What the runs ask of the load.
fn wish_of(runs: Option<Runs>) -> Wish
    ensures { result ≡ wish_of runs }
{
    match runs {
        Some(_) => Wish::Kept,
        None => Wish::Plain,
    }
}

impl Command<ListFault, Reason> for BootKernel {
    type Names = InputNames;

    type Taken = LoadInputs;

    ghost Inputs = { Inputs };

    ghost inputs = { inputs_of };

    ghost takes = { λ n. load_inputs n.image (inputs_value n.inputs) };

    ghost makes = { λ b. boots b.runs (string_bytes b.out) };

    fn take<S: Shelf>(alloc: Global, names: InputNames, shelf: &mut S) -> TakeResult<LoadInputs> {
        take_inputs(alloc, names, shelf)
    }

    // Loads the kernel and runs its list, and makes the file of the memory after the last run.
    fn make(self, alloc: Global, load: LoadInputs) -> MakeResult<Goods<ListFault>> {
        let kernel = load_request(alloc, load, wish_of(self.runs))?;
        let ran = run_loaded(alloc, kernel.loaded, self.runs)?;
        let text = ran_text(alloc, &ran, kernel.startup)?;
        let outputs = memory_output(alloc, ran.memory, self.out)?;
        Ok(Goods::done(outputs, text))
    }
}

/// Runs `boot`: loads a kernel and runs it. A memory map is named where the kernel's type or a purgatory needs one.
pub fn run_boot<S: Shelf, O: Sink>(
    alloc: Global,
    words: Boot,
    shelf: &mut S,
    out: &mut O,
) -> Result<(), Stop<ListFault, Reason>>
    requires { HasParts (inputs_value words.inputs) words.image }
    ensures { Meets S.Shelf O.Sink (boot_entry (boot_value words)).command shelf.old out.old
        (call_answer result) shelf.new out.new }
{
    let Boot {
        inputs,
        out: name,
        kept: runs,
        image,
    } = words;
    let names = InputNames { image, inputs };
    run(alloc, names, BootKernel { runs, out: name }, shelf, out)
}
