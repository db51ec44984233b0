//! Accepted lists are run. Running takes no memory; what is said of it is made afterwards, in `text`.

ghost use Rattle.std.specs.Prelude.{◌≡◌, List, IfOk, Some, None};
ghost use Rattle.kx_pages.specs.declared.item.Item.{Item};
ghost use Rattle.page_memory.specs.Contents.{at};
ghost use Rattle.page_memory.specs.Memory.{Agree};
ghost use Rattle.segments.specs.Values.{want};
ghost use Rattle.kx_pages.specs.Modes.{swap_page};
ghost use Rattle.list_checker.specs.Walk.{IsAccepted};
ghost use Rattle.load_states.specs.inner.Answers.{IsAcceptedAs};
ghost use Rattle.load_states.specs.Exchange.{exchange};
ghost use Rattle.load_states.specs.States.{Load, swap_of};
ghost use Rattle.command_parts.specs.inner.Ran.{HasMode, HasRun, RunsLoaded, runs_in};

use crate::counts::ListCounts;
use kexec_words::Runs;
use kx_pages::Image;
use list_checker::CheckFault;
use load_states::{Accepted, AcceptedKept, AcceptedPlain, Loaded, RanKept};
use page_memory::Memory;
use std::alloc::{AllocError, Global};

/// A memory after the last run, what was told of the list, and how many steps each run took.
#[derive(Drop)]
pub struct Ran {
    pub memory: Memory,
    pub image: Image,
    pub counts: ListCounts,
    /// The steps of the first run.
    pub steps: u64,
    /// The steps of the second run, where there was one.
    pub back: Option<u64>,
}

// Runs a plain list.
fn run_plain(accepted: AcceptedPlain) -> Ran
    ensures { HasRun None accepted result }
{
    let image = accepted.image();
    let accept = accepted.accept_data();
    let counts = ListCounts::of_accept(accept);
    let ran = accepted.exec();
    let steps = ran.steps();
    Ran {
        memory: ran.into_memory(),
        image,
        counts,
        steps,
        back: None,
    }
}

// Runs the list again, back to what memory held before: the memory and the steps of this run.
fn run_back(ran: RanKept) -> (Memory, u64)
    ensures memory { Agree (at result.0)
        (exchange (at ran.load.memory) ran.pairs (swap_of ran.load)) }
    ensures ends { result.1 ≡ ran.words }
{
    let back = ran.back();
    let steps = back.steps();
    let (memory, _, _, _) = back.loaded().parts();
    (memory, steps)
}

// Runs a list with context preserved, once, or once and back again.
fn run_kept(accepted: AcceptedKept, runs: Runs) -> Ran
    ensures { HasRun (Some runs) accepted result }
{
    let image = accepted.image();
    let accept = accepted.accept_data();
    let counts = ListCounts::of_accept(accept);
    let ran = accepted.exec();
    let steps = ran.steps();
    match runs {
        Runs::Once => Ran {
            memory: ran.into_memory(),
            image,
            counts,
            steps,
            back: None,
        },
        Runs::Twice => {
            let (memory, second) = run_back(ran);
            Ran {
                memory,
                image,
                counts,
                steps,
                back: Some(second),
            }
        }
    }
}

/// Runs an accepted list: a plain one once, and one with context preserved as often as is asked.
pub fn run_accepted(accepted: Accepted, runs: Runs) -> Ran
    ensures { (s : Load) → IsAcceptedAs s accepted
        → RunsLoaded (runs_in s.image.mode runs) s result }
{
    match accepted {
        Accepted::Plain(plain) => run_plain(plain),
        Accepted::Kept(kept) => run_kept(kept, runs),
    }
}

// The accepted state of a load whose list is accepted.
fn accept(alloc: Global, loaded: Loaded) -> Result<Accepted, AllocError>
    requires { (is : List Item)
        × IsAccepted (at loaded.memory) (want loaded.segments) loaded.image.head
        loaded.image.control (swap_page loaded.image.mode) is }
    ensures { IfOk result (λ a. IsAcceptedAs loaded a) }
{
    match loaded.accept(alloc) {
        Ok(accepted) => Ok(accepted),
        Err(refused) => match refused.why {
            CheckFault::Memory => Err(AllocError),
            CheckFault::List { .. } => unreachable!(),
        },
    }
}

/// Accepts a load whose list is accepted, and runs it.
pub fn run_loaded(alloc: Global, loaded: Loaded, runs: Option<Runs>) -> Result<Ran, AllocError>
    requires accepted { (is : List Item)
        × IsAccepted (at loaded.memory) (want loaded.segments) loaded.image.head
        loaded.image.control (swap_page loaded.image.mode) is }
    requires mode { HasMode runs loaded.image.mode }
    ensures { IfOk result (λ r. RunsLoaded runs loaded r) }
{
    let accepted = accept(alloc, loaded)?;
    Ok(run_accepted(accepted, runs.unwrap_or(Runs::Once)))
}
