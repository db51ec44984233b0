//! The real standard output. What it shows is not known here.

ghost use Rattle.std.specs.Prelude.{◌≡◌, ◌≤◌, ◌<◌, ◌^◌, OnErr, OnOk};
ghost use Rattle.std.specs.declared.option.Option.TheVariants.{None};
ghost use Rattle.kx_edge.specs.Edge.{Rose, Said, SaidPrefix};
ghost use Rattle.kx_laws.specs.Counts.{next_count};

use crate::transfers::write_all;
use crate::{SayFailed, Sink};
use std::io;
use std::marker::Model;

/// The standard output. It tells no contents, and contracts see its count of faults.
///
/// It is the trusted edge: that the count rises exactly where a call answers a failure is proved, and neither
/// that each failure of the system is answered nor what is shown is.
#[derive(Drop)]
pub struct StdSink<'a, R: Print> {
    rt: &'a R,
    faults: u64,
    /// What the system said of the last failure.
    cause: Option<io::Error>,
}

impl<'a, R: Print> Model for StdSink<'a, R> {
    ghost use Rattle.std.specs.Prelude.{ℕ, ◌<◌, ◌^◌};

    ghost Value = { ℕ };

    ghost view = { λ s. s.faults };

    ghost invariant = { λ s. s.faults < 2 ^ 64 };
}

impl<'a, R: Print> StdSink<'a, R> {
    /// A sink over the standard output of the runtime that it is lent, which has not failed yet.
    pub fn new(rt: &'a R) -> StdSink<'a, R>
        ensures { result ≡ 0 }
    {
        StdSink {
            rt,
            faults: 0,
            cause: None,
        }
    }

    /// What the system said of the last failure; None before the first. No contract sees it.
    pub fn cause(&self) -> Option<io::Error> {
        self.cause
    }
}

impl<R: Print> Sink for StdSink<'_, R> {
    ghost said = { λ _. None };

    ghost faults = { λ s. s };

    ghost says = { λ s _ t. t ≡ s };

    ghost breaks = { λ s _ t. t ≡ next_count s };

    /// Takes no memory.
    fn say(&mut self, bytes: &[u8]) -> Result<(), SayFailed>
        ensures said { OnOk result (Said None bytes.now None) }
        ensures prefix { OnErr result (SaidPrefix None bytes.now None) }
        ensures later { self.old ≤ self.new }
        ensures counted { self.new < 2 ^ 64 }
        ensures failed { OnErr result (Rose self.old self.new) }

        // The count rises by one at each failure, up to its last value, and else stays.
        ensures calm { OnOk result (self.new ≡ self.old) }
        ensures after_failed { OnErr result (self.new ≡ next_count self.old) }
    {
        match write_all(&mut io::writer(self.rt), bytes) {
            Ok(()) => Ok(()),
            Err(cause) => {
                self.faults = self.faults.saturating_add(1);
                self.cause = Some(cause);
                Err(SayFailed)
            }
        }
    }
}
