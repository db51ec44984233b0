//! Runs of a list.

ghost use Rattle.std.specs.Prelude.{◌≡◌, ◌<◌, Some, IfSome, IfOk, OnOk, OnErr};
ghost use Rattle.page_memory.specs.inner.Contents.{IsHeld};
ghost use Rattle.relocate_machine.specs.Machine.{start_at};
ghost use Rattle.relocate_machine.specs.inner.Writes.{AreHeld, IsHeldFor, IsWritten, Stays};
ghost use Rattle.relocate_machine.specs.Run.{run_of};
ghost use Rattle.relocate_machine.specs.inner.Run.{HeldFrom, HoldsWritten, IsCutShort};

use crate::step::{Machine, Outcome, Reading, Step, Writes};
use kx_pages::{Mode, Page};
use page_memory::Memory;
use std::alloc::AllocError;

/// Runs a list by at most `limit` steps. The pages that these steps write are held. It takes no memory.
///
/// Done exactly where the run ends within `limit` steps; otherwise off exactly where it is off before `limit` steps
/// were taken; otherwise running.
pub fn run_held(memory: &mut Memory, head: u64, mode: Mode, limit: u64) -> Outcome
    requires { HeldFrom limit (start_at memory.old head mode) }
    ensures memory { memory.new ≡ (run_of memory.old head mode limit).0.memory }
    ensures outcome { result ≡ (run_of memory.old head mode limit).1 }
    ensures stays { Stays memory.old memory.new }
{
    let mut machine = Machine::start(head, mode);
    let mut k = 0;
    while k < limit {
        let Reading { steps, word } = machine.read_words(memory, limit - k - 1);
        k += steps;
        match machine.take(memory, word) {
            Step::Went => k += 1,
            Step::Ended => return Outcome::Done { steps: k + 1 },
            Step::Off { address } => return Outcome::Off { address, steps: k },
        }
    }
    Outcome::Running { limit }
}

// The memory may run out between two steps, and never within one: the pages that a step writes are known from its word
// and are held before it begins. So what is left after want of memory is what whole steps have made.
//
// From one move to the next the swap page is known to be held, and not looked up. A limit bounds the run, since a list
// that no checker has seen may lead back into itself.
/// Runs a list by at most `limit` steps as `run_held` does, and holds each page before it is written, and no other: the
/// pages held are those that were and those that the steps wrote. After want of memory the memory is as some number of
/// steps below `limit` left it, but that pages which the next step writes may be held besides.
pub fn run(memory: &mut Memory, head: u64, mode: Mode, limit: u64) -> Result<Outcome, AllocError>
    ensures outcome { IfOk result (λ o. o ≡ (run_of memory.old head mode limit).1) }
    ensures memory { OnOk result (memory.new ≡ (run_of memory.old head mode limit).0.memory) }
    ensures held { OnOk result (HoldsWritten limit (start_at memory.old head mode) memory.new) }
    ensures failed { OnErr result (IsCutShort limit (start_at memory.old head mode) memory.new) }
    ensures stays { Stays memory.old memory.new }
{
    let mut machine = Machine::start(head, mode);
    let mut held_swap = None;
    let mut k = 0;
    while k < limit {
        let Reading { steps, word } = machine.read_words(memory, limit - k - 1);
        k += steps;
        let writes = machine.writes_by(word);
        let swap = writes.swap;
        hold_all(memory, writes, held_swap)?;
        held_swap = swap;
        match machine.take(memory, word) {
            Step::Went => k += 1,
            Step::Ended => return Ok(Outcome::Done { steps: k + 1 }),
            Step::Off { address } => return Ok(Outcome::Off { address, steps: k }),
        }
    }
    Ok(Outcome::Running { limit })
}

// Holds these pages, and no other. The swap page is not looked for where it is known to be held.
fn hold_all(memory: &mut Memory, writes: Writes, held_swap: Option<Page>) -> Result<(), AllocError>
    requires held { IfSome held_swap (λ p. IsHeld memory.old p) }
    ensures held { OnOk result (AreHeld memory.new writes) }
    ensures same { IsHeldFor (IsWritten writes) memory.old memory.new }
{
    hold_one(memory, writes.destination)?;
    hold_one(memory, writes.source)?;
    if writes.swap == held_swap {
        return Ok(());
    }
    hold_one(memory, writes.swap)
}

// Holds the page, where there is one, and no other.
fn hold_one(memory: &mut Memory, page: Option<Page>) -> Result<(), AllocError>
    ensures held { OnOk result (IfSome page (λ p. IsHeld memory.new p)) }
    ensures same { IsHeldFor (λ q. page ≡ Some q) memory.old memory.new }
{
    match page {
        Some(p) => memory.hold(p),
        None => Ok(()),
    }
}
