//! How a command ended.

ghost use Rattle.std.specs.Prelude.{◌≡◌};
ghost use Rattle.file_commands.specs.Answers.{refused};
ghost use Rattle.file_commands.specs.Taking.{by};
ghost use Rattle.file_commands.specs.inner.Calls.{answer_of as stop_answer};
ghost use Rattle.command_parts.specs.Statuses.{answer_of};
ghost use Rattle.command_parts.specs.ExitStatuses.{code_of};

use crate::reason::{InputFault, Reason};
use command_table::{Role, UsageWhy};
use file_commands::Stop;
use image_slots::SlotsFault;
use list_checker::ListFault;
use plan_faults::PlanFault;
use resident_planner::ResidentFault;
use thiserror::Error;
use vmcore_file::CoreFault;

/// How a command ended. Its text says in one sentence what was wrong, where, and what was wanted.
#[derive(Debug, Drop, Error)]
pub enum Status {
    /// The command did its work.
    #[error("done")]
    Done,
    /// The list is not accepted. Its first fault was said, and no output was written.
    #[error("the list is not accepted: {fault}, since {cause}", cause = .fault.cause())]
    NotAccepted {
        fault: ListFault,
    },
    /// The words are refused.
    #[error(transparent)]
    Usage {
        why: UsageWhy,
    },
    /// The file could not be read.
    #[error("{name:?} cannot be read: it must exist and be readable to its end")]
    Unread {
        role: Role,
        name: String,
    },
    /// The file could not be written. The outputs before it are whole, and it has a prefix of its bytes.
    #[error("{name:?} cannot be written: it must name a file in a folder that exists, is writable and has room")]
    Unwritten {
        role: Role,
        name: String,
    },
    /// The text could not be written whole. The outputs are whole.
    #[error("standard output cannot be written: it must be open and have room")]
    Unsaid,
    /// The file is longer than such a file can be.
    #[error("{name:?} is longer than {limit} bytes, which is the most that it can have here")]
    TooLong {
        role: Role,
        name: String,
        limit: u64,
    },
    /// The reader of an input file refused it.
    #[error(transparent)]
    Input {
        fault: InputFault,
    },
    /// The request has no plan.
    #[error(transparent)]
    Plan {
        fault: PlanFault,
    },
    /// The pool has fewer usable pages than the load takes.
    #[error("the pool has too few usable pages: {pool} where the load takes {need}; give it at least {} more", need.saturating_sub(*pool))]
    NoPages {
        pool: u64,
        need: u64,
    },
    /// The memory to write has more pages that are not all zeros than a memory file can have.
    #[error("{count} pages of the memory are not all zeros, and a memory file has at most 131072")]
    Heavy {
        count: u64,
    },
    /// `exec --twice` was given a record that is not in kept mode.
    #[error("the load record is in plain mode, as that of a crash kernel always is, and --twice needs one that was loaded with --kept")]
    NotKept,
    /// No list is made of the resident pages.
    #[error(transparent)]
    Resident {
        fault: ResidentFault,
    },
    /// There are no slots over the pool: one of its pages lies in the reserved area.
    #[error(transparent)]
    Slots {
        fault: SlotsFault,
    },
    /// The memory has no core file by the headers at the address.
    #[error(transparent)]
    Core {
        fault: CoreFault,
    },
    /// There was not enough memory for the work.
    #[error("there is not enough memory for the work: free some and try again")]
    Memory,
}

impl Status {
    /// The exit status of the program.
    pub fn code(&self) -> u8
        ensures { result ≡ code_of self.now }
    {
        match self {
            Status::Done => 0,
            Status::NotAccepted { .. } => 1,
            Status::Usage { .. } => 2,
            Status::Unread { .. } => 3,
            Status::Unwritten { .. } => 4,
            Status::Unsaid => 5,
            Status::TooLong { .. } => 6,
            Status::Input { .. } => 7,
            Status::Plan { .. } => 8,
            Status::NoPages { .. } => 9,
            Status::Heavy { .. } => 10,
            Status::NotKept => 11,
            Status::Memory => 12,
            Status::Resident { .. } => 13,
            Status::Slots { .. } => 14,
            Status::Core { .. } => 15,
        }
    }
}

impl From<Reason> for Status {
    ghost from_gives = { λ why s. answer_of s ≡ refused (by why) };

    fn from(why: Reason) -> Self {
        match why {
            Reason::Usage { why } => Status::Usage { why },
            Reason::Input { fault } => Status::Input { fault },
            Reason::NotKept => Status::NotKept,
            Reason::Plan { fault } => Status::Plan { fault },
            Reason::NoPages { pool, need } => Status::NoPages { pool, need },
            Reason::Resident { fault } => Status::Resident { fault },
            Reason::Heavy { count } => Status::Heavy { count },
            Reason::Slots { fault } => Status::Slots { fault },
            Reason::Core { fault } => Status::Core { fault },
        }
    }
}

impl From<Stop<ListFault, Reason>> for Status {
    ghost from_gives = { λ stop s. answer_of s ≡ stop_answer stop };

    fn from(stop: Stop<ListFault, Reason>) -> Self {
        match stop {
            Stop::NotAccepted { fault } => Status::NotAccepted { fault },
            Stop::Unread { role, name } => Status::Unread { role, name },
            Stop::Unwritten { role, name } => Status::Unwritten { role, name },
            Stop::Unsaid => Status::Unsaid,
            Stop::TooLong { role, name, limit } => Status::TooLong { role, name, limit },
            Stop::Refused { why } => Status::from(why),
            Stop::Memory => Status::Memory,
        }
    }
}
