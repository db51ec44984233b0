//! Holding the pages that a run writes.

ghost use Rattle.std.specs.Prelude.{◌≡◌, ◌⊎◌, ℕ, ◌++◌, map, IfOk, OnOk};
ghost use Rattle.std.specs.List.{AllByRecursion};
ghost use Rattle.kx_pages.specs.Lists.{Has, destinations, sources};
ghost use Rattle.page_memory.specs.Contents.{at};
ghost use Rattle.page_memory.specs.inner.Contents.{IsHeld};
ghost use Rattle.relocate_machine.specs.inner.Writes.{AreHeld, move_writes};
ghost use Rattle.list_checker.specs.Checked.{as_pair};
ghost use Rattle.load_states.specs.inner.Ready.{written_pages};

use kx_pages::{Mode, Page};
use list_checker::Pair;
use page_memory::Memory;
use std::alloc::{AllocError, Global};

// Puts the pairs' destinations behind the pages.
fn push_destinations(pages: &mut Vec<Page>, pairs: &[Pair]) -> Result<(), AllocError>
    ensures { OnOk result (pages.new.items ≡ pages.old.items ++ destinations
        (map as_pair pairs.now)) }
{
    for pair in pairs {
        pages.push(pair.destination)?;
    }
    Ok(())
}

// Puts the pairs' sources behind the pages.
fn push_sources(pages: &mut Vec<Page>, pairs: &[Pair]) -> Result<(), AllocError>
    ensures { OnOk result (pages.new.items ≡ pages.old.items ++ sources (map as_pair pairs.now)) }
{
    for pair in pairs {
        pages.push(pair.source)?;
    }
    Ok(())
}

// The pages that the pairs' moves write.
fn written_pages(alloc: Global, mode: &Mode, pairs: &[Pair]) -> Result<Vec<Page>, AllocError>
    ensures { IfOk result (λ pages. pages.items ≡ written_pages mode.now (map as_pair pairs.now)) }
{
    let mut pages = Vec::new(alloc);
    push_destinations(&mut pages, pairs)?;
    if let Mode::Kept { swap } = mode {
        push_sources(&mut pages, pairs)?;
        pages.push(*swap)?;
    }
    Ok(pages)
}

/// Each page that the pairs' moves write is held, what was held stays so, and no other becomes held. What memory reads as
/// stays, after want of memory too.
pub(crate) fn hold_pairs(
    alloc: Global,
    memory: &mut Memory,
    mode: &Mode,
    pairs: &[Pair],
) -> Result<(), AllocError>
    ensures held { OnOk result (AllByRecursion (λ q.
        AreHeld memory.new (move_writes mode.now q.0 q.1)) (map as_pair pairs.now)) }
    ensures same { (q : ℕ) → at memory.new q ≡ at memory.old q }
    ensures sets { memory.new.sets ≡ memory.old.sets }
    ensures stay { (q : ℕ) → IsHeld memory.old q → IsHeld memory.new q }
    ensures written { OnOk result (AllByRecursion (λ q. IsHeld memory.new q)
        (written_pages mode.now (map as_pair pairs.now))) }
    ensures only { (q : ℕ) → IsHeld memory.new q →
        IsHeld memory.old q ⊎ Has q (written_pages mode.now (map as_pair pairs.now)) }
{
    let pages = written_pages(alloc, mode, pairs)?;
    memory.hold_all(&pages)
}
