//! Runs of entries that pass a test.
//!
//! Sections of relocations may cover the same bytes of a file: in 16 MiB there is room for 60,000 sections that have the
//! same 500,000 entries each. So each entry is tested where it stands, once, and there it is noted how many entries in a
//! row from it on pass the test: those of a section that do are passed over in one step.

ghost use Rattle.std.specs.Prelude.{◌≡◌, ℕ, ◌+◌, ◌-◌, ◌*◌, ◌^◌, ◌<◌, ◌≤◌, Bool, true, false, [], length, get_or, IfOk, OnOk};
ghost use Rattle.elf_image.specs.inner.Runs.{AreRuns};

use std::alloc::{AllocError, Global};
use std::marker::Model;

/// How many entries in a row pass a test, from each of so many bytes of a file on. It is noted from the last byte to the
/// first: number `i` of the lengths is that of the byte `end - 1 - i`.
#[derive(Drop)]
pub struct EntryRuns {
    end: usize,
    lengths: Vec<u32>,
}

impl Model for EntryRuns {
    ghost use Rattle.elf_image.specs.inner.Runs.{Runs};

    ghost Value = { Runs };

    ghost view = { λ r. record { end = r.end; lengths = r.lengths.items } };
}

impl EntryRuns {
    /// Nothing is noted, and no entry is passed over.
    pub fn none(alloc: Global) -> EntryRuns
        ensures { (test : ℕ → Bool) → AreRuns test result }
    {
        EntryRuns {
            end: 0,
            lengths: Vec::new(alloc),
        }
    }

    /// Nothing is noted yet of a file of so many bytes.
    pub fn of_file(alloc: Global, end: usize) -> Result<EntryRuns, AllocError>
        ensures none { IfOk result (λ r. (test : ℕ → Bool) → AreRuns test r) }
        ensures end { IfOk result (λ r. r.end ≡ end) }
        ensures length { IfOk result (λ r. r.lengths ≡ []) }
    {
        let mut lengths = Vec::new(alloc);
        lengths.reserve_exact(end)?;
        Ok(EntryRuns { end, lengths })
    }

    // The length that is noted for the entry behind the next one.
    fn behind(&self) -> u32
        ensures few { length self.now.lengths < 24 → result ≡ 0 }
        ensures many { 24 ≤ length self.now.lengths
            → result ≡ get_or self.now.lengths (length self.now.lengths - 24) 0 }
    {
        let count = self.lengths.len();
        if count < 24 {
            return 0;
        }
        self.lengths[count - 24]
    }

    // What is to be noted for the next entry, which passes or not.
    fn next(&self, passes: bool) -> u32
        ensures fails { passes ≡ false → result ≡ 0 }
        ensures few { length self.now.lengths < 24 → result ≤ 1 }
        ensures many { 24 ≤ length self.now.lengths
            → result ≤ get_or self.now.lengths (length self.now.lengths - 24) 0 + 1 }
    {
        if passes {
            self.behind().saturating_add(1)
        } else {
            0
        }
    }

    /// Notes whether the entry passes that stands at the next byte, the one before those that are noted.
    pub fn push(&mut self, passes: bool) -> Result<(), AllocError>
        requires { length self.old.lengths < self.old.end }
        ensures runs { OnOk result ((test : ℕ → Bool) → AreRuns test self.old
            → (passes ≡ true → test (self.old.end - 1 - length self.old.lengths) ≡ true)
            → AreRuns test self.new) }
        ensures end { OnOk result (self.new.end ≡ self.old.end) }
        ensures length { OnOk result
            (length self.new.lengths ≡ length self.old.lengths + 1) }
    {
        let length = self.next(passes);
        self.lengths.push(length)?;
        Ok(())
    }

    /// So many entries in a row pass, from this byte of the file on. There may be more of them.
    pub fn run(&self, at: usize) -> usize
        ensures runs { (test : ℕ → Bool) → AreRuns test self.now
            → (k : ℕ) → k < result → test (at + 24 * k) ≡ true }
        ensures small { result < 2 ^ 32 }
    {
        if at >= self.end {
            return 0;
        }
        match self.lengths.get(self.end - 1 - at) {
            Some(length) => *length as usize,
            None => 0,
        }
    }
}
