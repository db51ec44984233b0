//! Memory with any list.

ghost use Rattle.std.specs.Prelude.{◌≡◌, ◌≤◌, ◌⊎◌, ℕ, length, map, IfOk, IfErr, OnOk};
ghost use Rattle.std.specs.List.{AllByRecursion};
ghost use Rattle.kx_pages.specs.Lists.{Has};
ghost use Rattle.kx_pages.specs.Bytes.{page_of};
ghost use Rattle.page_memory.specs.inner.Contents.{IsHeld, after_set};
ghost use Rattle.relocate_machine.specs.inner.Writes.{AreHeld, move_writes};
ghost use Rattle.list_checker.specs.Checked.{as_pair};
ghost use Rattle.list_checker.specs.inner.Checked.{IsAccept, IsCheckFault};
ghost use Rattle.segments.specs.inner.Rules.{IsBare};
ghost use Rattle.load_states.specs.States.{no_pages, with_memory};
ghost use Rattle.load_states.specs.inner.States.{IsLeftAs};
ghost use Rattle.load_states.specs.inner.Answers.{HoldsForRun, HoldsNoOther, IsAcceptedAs};
ghost use Rattle.load_states.specs.inner.Ready.{written_pages};
ghost use Rattle.load_states.specs.inner.Runs.{TellsAlike, checked_in};

use crate::accepted::{Accepted, of_mode};
use crate::hold::hold_pairs;
use kx_pages::{Image, Page};
use list_checker::{Accept, CheckFault, Pair, check};
use page_memory::Memory;
use page_pool::Pool;
use segments::Segments;
use std::alloc::{AllocError, Global};
use std::marker::Model;

/// A memory with a list in it, the pool, what running the list takes, and the segments that it is for. The list may be
/// any; it cannot be run before `accept`.
#[derive(Drop)]
pub struct Loaded {
    memory: Memory,
    pool: Pool,
    image: Image,
    segments: Segments,
}

impl Model for Loaded {
    ghost use Rattle.load_states.specs.States.{Load};
    ghost use Rattle.load_states.specs.inner.States.{load_code};

    ghost Value = { Load };

    ghost coded = { load_code };

    ghost view = { λ s. record {
      memory = s.memory;
      pool = s.pool;
      image = s.image;
      segments = s.segments;
    } };
}

/// The load, as it was, and why its list was not found to be accepted.
#[derive(Drop)]
pub struct NotAccepted {
    /// The load that was tested.
    pub loaded: Loaded,
    /// The first fault of its list, or want of memory.
    pub why: CheckFault,
}

impl Loaded {
    /// The load of these parts, whatever its list is.
    pub fn from_parts(memory: Memory, pool: Pool, image: Image, segments: Segments) -> Loaded
        ensures { result ≡ record {
          memory = memory;
          pool = pool;
          image = image;
          segments = segments;
        } }
    {
        Loaded {
            memory,
            pool,
            image,
            segments,
        }
    }

    /// The load of a list that was read from files: no page is drawn for it any more, so that its pool has none.
    pub fn from_files(alloc: Global, memory: Memory, image: Image, segments: Segments) -> Loaded
        ensures { result ≡ record {
          memory = memory;
          pool = no_pages;
          image = image;
          segments = segments;
        } }
    {
        Loaded {
            memory,
            pool: Pool::empty(alloc),
            image,
            segments,
        }
    }

    /// The memory.
    pub fn memory(&self) -> &Memory
        ensures { result.now ≡ self.now.memory }
    {
        &self.memory
    }

    /// What running the list takes.
    pub fn image(&self) -> Image
        ensures { result ≡ self.now.image }
    {
        self.image
    }

    /// The segments that the list is for.
    pub fn segments(&self) -> &Segments
        ensures { result.now ≡ self.now.segments }
    {
        &self.segments
    }

    /// The parts of the load.
    pub fn parts(self) -> (Memory, Pool, Image, Segments)
        ensures memory { result.0 ≡ self.memory }
        ensures pool { result.1 ≡ self.pool }
        ensures image { result.2 ≡ self.image }
        ensures segments { result.3 ≡ self.segments }
    {
        let Loaded {
            memory,
            pool,
            image,
            segments,
        } = self;
        (memory, pool, image, segments)
    }

    // Holds the pages that the pairs' moves write, and no other.
    fn hold(&mut self, alloc: Global, pairs: &[Pair]) -> Result<(), AllocError>
        ensures held { OnOk result (AllByRecursion (λ q.
            AreHeld self.new.memory (move_writes self.new.image.mode q.0 q.1))
            (map as_pair pairs.now)) }
        ensures same { IsLeftAs self.old self.new }
        ensures written { OnOk result (AllByRecursion (λ q. IsHeld self.new.memory q)
            (written_pages self.old.image.mode (map as_pair pairs.now))) }
        ensures only { (q : ℕ) → IsHeld self.new.memory q → IsHeld self.old.memory q
            ⊎ Has q (written_pages self.old.image.mode (map as_pair pairs.now)) }
    {
        hold_pairs(alloc, &mut self.memory, &self.image.mode, pairs)
    }

    // The page, which is held, becomes these bytes, then zeros.
    pub(crate) fn set(&mut self, p: Page, bytes: &[u8])
        requires held { IsHeld self.old.memory p }
        requires fits { length bytes.now ≤ 4096 }
        ensures { self.new ≡ with_memory self.old (after_set self.old.memory p
            (page_of bytes.now)) }
    {
        self.memory.set(p, bytes);
    }

    /// Tests the list in the memory for the segments. Ok exactly where it is accepted, in the image's mode, want of memory
    /// aside. Each page that the run writes is held then. All else is as it was, after a refusal too: where the list has
    /// a fault the load is unchanged, and where memory is wanted some of these pages may be held.
    pub fn accept(self, alloc: Global) -> Result<Accepted, NotAccepted>
        ensures accepted { IfOk result (λ a. IsAcceptedAs self a) }
        // Of a load that reads alike the same is told, and its runs leave the same.
        ensures alike { IfOk result (λ a. TellsAlike (checked_in a)) }
        ensures refused { IfErr result (λ e.
            IsCheckFault self.memory self.segments self.image e.why) }
        ensures given_back { IfErr result (λ e. IsLeftAs self e.loaded) }
        ensures held { IfOk result (λ a. HoldsForRun self (checked_in a)) }
        ensures as_it_was { IfErr result (λ e.
            (e.why ≡ CheckFault.Memory → ⊥) → e.loaded ≡ self) }
        ensures no_other { IfErr result (λ e. HoldsNoOther self e.loaded) }
    {
        match check(alloc, &self.memory, &self.image, &self.segments) {
            Ok(accept) => hold_for_run(alloc, self, accept),
            Err(why) => Err(NotAccepted { loaded: self, why }),
        }
    }
}

// Makes the state of an accepted list: each page that its run writes is held. The list is tested first and the pages are
// held after that: holding changes nothing that is read, so what was accepted still is, and a list that is refused costs
// no page.
fn hold_for_run(alloc: Global, mut loaded: Loaded, accept: Accept) -> Result<Accepted, NotAccepted>
    requires told { IsAccept loaded.memory loaded.segments loaded.image accept }
    requires bare { IsBare loaded.segments }
    ensures accepted { IfOk result (λ a. IsAcceptedAs loaded a) }
    ensures held { IfOk result (λ a. HoldsForRun loaded (checked_in a)) }
    ensures refused { IfErr result (λ e. (e.why ≡ CheckFault.Memory) × IsLeftAs loaded e.loaded) }
    ensures no_other { IfErr result (λ e. HoldsNoOther loaded e.loaded) }
{
    match loaded.hold(alloc, &accept.pairs) {
        Ok(()) => Ok(of_mode(loaded, accept)),
        Err(_) => Err(NotAccepted {
            loaded,
            why: CheckFault::Memory,
        }),
    }
}
