//! `trace`: runs any list for some steps.

ghost use Rattle.std.specs.Prelude.{◌≡◌, ◌<◌, ◌^◌, ℕ, Some, IfOk, string_bytes};
ghost use Rattle.file_commands.specs.Answers.{Meets};
ghost use Rattle.file_commands.specs.inner.Calls.{Makes, call_answer};
ghost use Rattle.page_memory.specs.Contents.{Contents};
ghost use Rattle.kexec_words.specs.inner.Values.{trace_value};
ghost use Rattle.command_parts.specs.Files.{memory_file};
ghost use Rattle.list_commands.specs.Trace.{mode_by, outcome_line, traces, trace_entry};

use command_parts::{MakeResult, Reason, TakeResult, memory_output, take_memory};
use file_commands::{Command, Goods, Stop, run};
use kexec_words::Trace;
use kx_edge::{Shelf, Sink};
use kx_pages::{Mode, Page};
use list_checker::ListFault;
use page_memory::Memory;
use relocate_machine::{Outcome, run as run_steps};
use std::alloc::{AllocError, Global};

/// How `trace` is done: from which head word on, by the moves of which mode, for how many steps at most, and the name of
/// the output.
#[derive(Drop)]
pub(crate) struct RunSteps {
    pub(crate) head: u64,
    pub(crate) mode: Mode,
    pub(crate) limit: u64,
    pub(crate) out: String,
}

// How a run came out.
fn outcome_line(alloc: Global, outcome: Outcome) -> Result<String, AllocError>
    ensures { IfOk result (λ s. string_bytes s ≡ outcome_line outcome) }
{
    match outcome {
        Outcome::Done { steps } => format!(in alloc; "done {steps}\n"),
        Outcome::Running { limit } => format!(in alloc; "running {limit}\n"),
        Outcome::Off { address, steps } => format!(in alloc; "off {address:x} after {steps}\n"),
    }
}

// The mode of a run: with a swap page, whose address this is, its moves are those of kept mode.
fn mode_by(swap: Option<u64>) -> Mode
    requires { (a : ℕ) → swap ≡ Some a → a < 2 ^ 46 }
    ensures { result ≡ mode_by swap }
{
    match swap {
        Some(address) => Mode::Kept {
            swap: Page::from_address(address),
        },
        None => Mode::Plain,
    }
}

// Runs the list, and makes the file of the memory after the steps and the line that tells how the run came out.
fn make_trace(alloc: Global, trace: RunSteps, mut memory: Memory) -> MakeResult<Goods<ListFault>>
    ensures { Makes (traces trace.head trace.mode trace.limit (string_bytes trace.out)) memory
        result }
{
    let outcome = run_steps(&mut memory, trace.head, trace.mode, trace.limit)?;
    let text = outcome_line(alloc, outcome)?;
    let outputs = memory_output(alloc, memory, trace.out)?;
    Ok(Goods::done(outputs, text))
}

impl Command<ListFault, Reason> for RunSteps {
    type Names = String;

    type Taken = Memory;

    ghost Inputs = { Contents };

    ghost inputs = { λ m. m };

    ghost takes = { λ name. memory_file (string_bytes name) };

    ghost makes = { λ t. traces t.head t.mode t.limit (string_bytes t.out) };

    fn take<S: Shelf>(alloc: Global, name: String, shelf: &mut S) -> TakeResult<Memory> {
        take_memory(alloc, name, shelf)
    }

    fn make(self, alloc: Global, memory: Memory) -> MakeResult<Goods<ListFault>> {
        make_trace(alloc, self, memory)
    }
}

/// Runs `trace`: runs any list for some steps. A swap page is a page.
pub fn run_trace<S: Shelf, O: Sink>(
    alloc: Global,
    words: Trace,
    shelf: &mut S,
    out: &mut O,
) -> Result<(), Stop<ListFault, Reason>>
    requires { (a : ℕ) → words.swap ≡ Some a → a < 2 ^ 46 }
    ensures { Meets S.Shelf O.Sink (trace_entry (trace_value words)).command shelf.old out.old
        (call_answer result) shelf.new out.new }
{
    let trace = RunSteps {
        head: words.head,
        mode: mode_by(words.swap),
        limit: words.limit,
        out: words.out,
    };
    run(alloc, words.memory, trace, shelf, out)
}
