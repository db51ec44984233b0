//! What answers words that are not read.

ghost use Rattle.std.specs.Prelude.{◌≡◌};
ghost use Rattle.kexec_words.specs.declared.faults.WordsFault.TheVariants.{Memory, Usage};
ghost use Rattle.command_table.specs.declared.faults.UsageWhy.TheVariants.{Number};

use command_table::{UsageWhy, Which};
use std::alloc::AllocError;
use thiserror::Error;

/// The answer to words that are not read.
#[derive(Clone, Copy, Debug, Error)]
pub enum WordsFault {
    /// Memory is wanting.
    #[error("out of memory")]
    Memory,
    /// The words are refused.
    #[error(transparent)]
    Usage { why: UsageWhy },
}

impl From<AllocError> for WordsFault {
    ghost from_gives = { λ _ e. e ≡ Memory };

    fn from(_: AllocError) -> Self {
        WordsFault::Memory
    }
}

impl From<UsageWhy> for WordsFault {
    ghost from_gives = { λ why e. e ≡ Usage why };

    fn from(why: UsageWhy) -> Self {
        WordsFault::Usage { why }
    }
}

impl From<Which> for WordsFault {
    ghost from_gives = { λ which e. e ≡ Usage (Number which) };

    fn from(which: Which) -> Self {
        WordsFault::Usage {
            why: UsageWhy::Number { which },
        }
    }
}
