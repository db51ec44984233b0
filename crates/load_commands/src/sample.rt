//! `sample`: loads what a number makes, and runs it. It takes no file.

ghost use Rattle.std.specs.Prelude.{◌≡◌, ◌++◌, IfOk, OnOk, string_bytes};
ghost use Rattle.page_memory.specs.Contents.{at};
ghost use Rattle.file_commands.specs.Answers.{Meets};
ghost use Rattle.file_commands.specs.inner.Calls.{call_answer};
ghost use Rattle.command_parts.specs.inner.Ran.{ran_text};
ghost use Rattle.file_commands.specs.Taking.{ok};
ghost use Rattle.load_commands.specs.Sample.{memory_line, samples, sample_entry};
ghost use Rattle.load_commands.specs.inner.Views.{start_alone};

use command_parts::{MakeResult, Ran, Reason, Startup, TakeResult, ran_text, run_loaded};
use file_commands::{Command, Goods, Stop, run};
use kx_edge::{Shelf, Sink};
use kx_pages::Start;
use list_checker::ListFault;
use page_memory::Memory;
use sample_load::{digest_of, load_sample, start_of};
use std::alloc::{AllocError, Global};

/// How `sample` is done: its number, which is below 10^18.
#[derive(Drop)]
pub(crate) struct RunSample {
    pub(crate) number: u64,
}

// Adds the digest of a sample's memory.
#[tactic(auto, unfolding(crate::specs::Sample::memory_line))]
fn push_memory_line(alloc: Global, text: &mut String, memory: &Memory) -> Result<(), AllocError>
    ensures { OnOk result (string_bytes text.new
        ≡ string_bytes text.old ++ memory_line (at memory.now)) }
{
    let digest = hex::encode(alloc, digest_of(memory))?;
    text.push_str(&format!(in alloc; "memory {digest}\n")?)
}

// What `sample` says: of its list and the run, and the digest of the memory after it.
fn sample_text(alloc: Global, ran: &Ran, start: &Start) -> Result<String, AllocError>
    ensures { IfOk result (λ s. string_bytes s
        ≡ ran_text ran.now (start_alone start.now) ++ memory_line (at ran.now.memory)) }
{
    let startup = Startup {
        start: *start,
        purgatory: None,
    };
    let mut text = ran_text(alloc, ran, startup)?;
    push_memory_line(alloc, &mut text, &ran.memory)?;
    Ok(text)
}

impl Command<ListFault, Reason> for RunSample {
    type Names = ();

    type Taken = ();

    ghost Inputs = { Unit {0} };

    ghost inputs = { λ t. tt };

    ghost takes = { λ n. ok tt };

    ghost makes = { λ s. samples s.number };

    #[tactic(auto, unfolding(file_commands::specs::Taking::Took))]
    fn take<S: Shelf>(_: Global, _: (), _: &mut S) -> TakeResult<()> {
        Ok(())
    }

    // Loads the sample of the number, runs its list, and makes the text that tells of both.
    fn make(self, alloc: Global, _: ()) -> MakeResult<Goods<ListFault>> {
        let loaded = load_sample(alloc, self.number)?;
        let start = start_of(loaded.segments());
        let ran = run_loaded(alloc, loaded, None)?;
        let text = sample_text(alloc, &ran, &start)?;
        Ok(Goods::done(Vec::new(alloc), text))
    }
}

/// Runs `sample`: loads what the number makes, and runs it. It takes no file.
pub fn run_sample<S: Shelf, O: Sink>(
    alloc: Global,
    number: u64,
    shelf: &mut S,
    out: &mut O,
) -> Result<(), Stop<ListFault, Reason>>
    ensures { Meets S.Shelf O.Sink (sample_entry number).command shelf.old out.old
        (call_answer result) shelf.new out.new }
{
    run(alloc, (), RunSample { number }, shelf, out)
}
