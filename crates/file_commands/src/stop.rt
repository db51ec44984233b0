//! Why a command, or a part of one, stopped.

ghost use Rattle.std.specs.Prelude.{◌≡◌};

use command_table::Role;
use std::alloc::{AllocError, AllocFailed};

/// Why files could not be taken.
#[derive(Drop)]
pub enum TakeFault<R> {
    /// The take of this file failed.
    Unread {
        role: Role,
        name: String,
    },
    /// The file is longer than it can be here.
    TooLong {
        role: Role,
        name: String,
        limit: u64,
    },
    /// What was read is refused.
    Refused {
        why: R,
    },
    /// There was not enough memory.
    Memory,
}

/// Why nothing was made of what was taken.
#[derive(Drop)]
pub enum MakeFault<R> {
    /// It is refused.
    Refused { why: R },
    /// There was not enough memory.
    Memory,
}

impl<R> MakeFault<R> {
    /// It is refused for this reason.
    pub fn refused(why: R) -> MakeFault<R>
        ensures { result ≡ MakeFault.Refused why }
    {
        MakeFault::Refused { why }
    }
}

/// Why a command is not done.
#[derive(Drop)]
pub enum Stop<F, R> {
    /// What was made has a fault, and went out.
    NotAccepted {
        fault: F,
    },
    /// The take of this file failed.
    Unread {
        role: Role,
        name: String,
    },
    /// The put of this file failed. The outputs before it are whole, and it has a prefix of its bytes.
    Unwritten {
        role: Role,
        name: String,
    },
    /// The text could not be said whole. The outputs are whole.
    Unsaid,
    /// The file is longer than it can be here.
    TooLong {
        role: Role,
        name: String,
        limit: u64,
    },
    /// The command is refused.
    Refused {
        why: R,
    },
    /// There was not enough memory.
    Memory,
}

impl<R> From<AllocError> for TakeFault<R> {
    ghost use Rattle.file_commands.specs.declared.stop.TakeFault.TheVariants.{Memory};

    ghost from_gives = { λ _ e. e ≡ Memory };

    fn from(_: AllocError) -> Self {
        TakeFault::Memory
    }
}

impl<T: Drop, R> From<AllocFailed<T>> for TakeFault<R> {
    ghost use Rattle.file_commands.specs.declared.stop.TakeFault.TheVariants.{Memory};

    ghost from_gives = { λ _ e. e ≡ Memory };

    fn from(_: AllocFailed<T>) -> Self {
        TakeFault::Memory
    }
}

impl<R> From<AllocError> for MakeFault<R> {
    ghost use Rattle.file_commands.specs.declared.stop.MakeFault.TheVariants.{Memory};

    ghost from_gives = { λ _ e. e ≡ Memory };

    fn from(_: AllocError) -> Self {
        MakeFault::Memory
    }
}

impl<T: Drop, R> From<AllocFailed<T>> for MakeFault<R> {
    ghost use Rattle.file_commands.specs.declared.stop.MakeFault.TheVariants.{Memory};

    ghost from_gives = { λ _ e. e ≡ Memory };

    fn from(_: AllocFailed<T>) -> Self {
        MakeFault::Memory
    }
}

impl<F, R> From<TakeFault<R>> for Stop<F, R> {
    ghost use Rattle.file_commands.specs.inner.Calls.{answer_of, take_answer};

    ghost from_gives = { λ f e. answer_of e ≡ take_answer f };

    fn from(fault: TakeFault<R>) -> Self {
        match fault {
            TakeFault::Unread { role, name } => Stop::Unread { role, name },
            TakeFault::TooLong { role, name, limit } => Stop::TooLong { role, name, limit },
            TakeFault::Refused { why } => Stop::Refused { why },
            TakeFault::Memory => Stop::Memory,
        }
    }
}

impl<F, R> From<MakeFault<R>> for Stop<F, R> {
    ghost use Rattle.file_commands.specs.inner.Calls.{answer_of, make_answer};

    ghost from_gives = { λ f e. answer_of e ≡ make_answer f };

    fn from(fault: MakeFault<R>) -> Self {
        match fault {
            MakeFault::Refused { why } => Stop::Refused { why },
            MakeFault::Memory => Stop::Memory,
        }
    }
}
