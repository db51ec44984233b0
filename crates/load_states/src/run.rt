//! Running a list that is known to end.

ghost use Rattle.std.specs.Prelude.{◌≡◌};
ghost use Rattle.relocate_machine.specs.Machine.{start_at};
ghost use Rattle.relocate_machine.specs.Run.{run_of};
ghost use Rattle.relocate_machine.specs.inner.Run.{HeldFrom};

use kx_pages::Mode;
use page_memory::Memory;
use relocate_machine::{Outcome, run_held};

/// Runs a list that ends after exactly so many steps, and whose pages are held. It takes no memory.
pub(crate) fn run_to_end(memory: &mut Memory, head: u64, mode: Mode, words: u64) -> u64
    requires held { HeldFrom words (start_at memory.old head mode) }
    requires ends { (run_of memory.old head mode words).1 ≡ Outcome.Done words }
    ensures steps { result ≡ words }
    ensures memory { memory.new ≡ (run_of memory.old head mode words).0.memory }
{
    match run_held(memory, head, mode, words) {
        Outcome::Done { steps } => steps,
        _ => unreachable!(),
    }
}
