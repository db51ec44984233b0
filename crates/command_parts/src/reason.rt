//! Why a command is refused.

ghost use Rattle.std.specs.Prelude.{◌≡◌};
ghost use Rattle.command_parts.specs.inner.Readers.{stop_by, wants_memory};

use command_table::UsageWhy;
use crash_headers::NoteFault;
use file_commands::{MakeFault, TakeFault};
use image_slots::{EventsFault, SlotsFault};
use load_record::RecFault;
use memory_map::MapFault;
use page_memory::MemFault;
use page_pool::PoolFault;
use plan_faults::PlanFault;
use resident_planner::{PairsFault, ResidentFault};
use thiserror::Error;
use vmcore_file::CoreFault;

/// Why an input file was refused: by its reader, with the place in it.
#[derive(Clone, Copy, Debug, Error)]
pub enum InputFault {
    /// The memory file.
    #[error(transparent)]
    Mem { fault: MemFault },
    /// The pool file.
    #[error(transparent)]
    Pool { fault: PoolFault },
    /// The memory map.
    #[error(transparent)]
    Map { fault: MapFault },
    /// The load record.
    #[error(transparent)]
    Rec { fault: RecFault },
    /// The file of notes.
    #[error(transparent)]
    Notes { fault: NoteFault },
    /// The file of pairs.
    #[error(transparent)]
    Pairs { fault: PairsFault },
    /// The file of events.
    #[error(transparent)]
    Events { fault: EventsFault },
}

impl InputFault {
    // The reader wanted memory.
    fn wants_memory(&self) -> bool
        ensures { result ≡ wants_memory self.now }
    {
        match self {
            InputFault::Mem { fault } => matches!(fault, MemFault::Memory),
            InputFault::Pool { fault } => matches!(fault, PoolFault::Memory),
            InputFault::Map { fault } => matches!(fault, MapFault::Memory),
            InputFault::Rec { fault } => matches!(fault, RecFault::Memory),
            InputFault::Notes { fault } => matches!(fault, NoteFault::Memory),
            InputFault::Pairs { fault } => matches!(fault, PairsFault::Memory),
            InputFault::Events { fault } => matches!(fault, EventsFault::Memory),
        }
    }

    /// Why the file is not taken: its reader wanted memory, or refuses it.
    pub fn stop(self) -> TakeFault<Reason>
        ensures { result ≡ stop_by self }
    {
        if self.wants_memory() {
            return TakeFault::Memory;
        }
        TakeFault::Refused {
            why: Reason::Input { fault: self },
        }
    }
}

/// Why a command is refused, in the order in which its work is done.
#[derive(Clone, Copy)]
pub enum Reason {
    /// The words are refused.
    Usage { why: UsageWhy },
    /// The reader of an input file refused it.
    Input { fault: InputFault },
    /// `exec --twice` was given a record that is not in kept mode.
    NotKept,
    /// The request has no plan.
    Plan { fault: PlanFault },
    /// The pool has fewer usable pages than the load takes.
    NoPages { pool: u64, need: u64 },
    /// No list is made of the resident pages.
    Resident { fault: ResidentFault },
    /// The memory to write has more pages that are not all zeros than a memory file can have.
    Heavy { count: u64 },
    /// There are no slots over the pool: one of its pages lies in the reserved area.
    Slots { fault: SlotsFault },
    /// The memory has no core file by the headers at the address.
    Core { fault: CoreFault },
}

/// What a command takes, or why it is not taken.
pub type TakeResult<T> = Result<T, TakeFault<Reason>>;

/// What is made of what was taken, or why nothing is made.
pub type MakeResult<T> = Result<T, MakeFault<Reason>>;
