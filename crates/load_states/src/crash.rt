//! Crash kernels, which lie in their place from the load on.

ghost use Rattle.std.specs.Prelude.{◌≡◌, ◌⊎◌, ◌↔◌, ℕ, true, IfOk, IfErr};
ghost use Rattle.page_memory.specs.Contents.{at};
ghost use Rattle.page_memory.specs.inner.Contents.{IsHeld};
ghost use Rattle.segments.specs.Values.{is_destination, want, overlay, pages};
ghost use Rattle.kx_pages.specs.Items.{decode};
ghost use Rattle.list_checker.specs.Crash.{AcceptedCrash as IsAcceptedCrash, crash_reason};
ghost use Rattle.load_states.specs.inner.Runs.{CrashRunsTo};

use crate::lay::{hold_set, lay_set};
use crate::ran::RanPlain;
use crate::run::run_to_end;
use kx_pages::{DONE_WORD, Mode};
use list_checker::{ListFault, check_crash};
use page_memory::Memory;
use segments::Segments;
use std::alloc::Global;
use std::marker::Model;

/// A memory with the head of a crash list, and the segments that it is for.
#[derive(Drop)]
pub struct CrashLoaded {
    memory: Memory,
    head: u64,
    segments: Segments,
}

impl Model for CrashLoaded {
    ghost use Rattle.load_states.specs.States.{CrashLoad};
    ghost use Rattle.load_states.specs.inner.States.{crash_code};

    ghost Value = { CrashLoad };

    ghost coded = { crash_code };

    ghost view = { λ s. record { memory = s.memory; head = s.head; segments = s.segments } };
}

/// A crash list that is accepted in the memory that this owns.
#[derive(Drop)]
pub struct AcceptedCrash {
    loaded: CrashLoaded,
}

impl Model for AcceptedCrash {
    ghost use Rattle.page_memory.specs.Contents.{at};
    ghost use Rattle.segments.specs.Values.{want};
    ghost use Rattle.list_checker.specs.Crash.{AcceptedCrash as IsAcceptedCrash};
    ghost use Rattle.load_states.specs.States.{CrashLoad};
    ghost use Rattle.load_states.specs.inner.States.{crash_code};

    ghost Value = { CrashLoad };

    ghost coded = { crash_code };

    ghost view = { λ s. s.loaded };

    ghost invariant = { λ s. IsAcceptedCrash (at s.loaded.memory) (want s.loaded.segments)
        s.loaded.head };
}

impl CrashLoaded {
    /// The load of these parts, whatever the head is.
    pub fn from_parts(memory: Memory, head: u64, segments: Segments) -> CrashLoaded
        ensures { result ≡ record { memory = memory; head = head; segments = segments } }
    {
        CrashLoaded {
            memory,
            head,
            segments,
        }
    }

    /// The memory.
    pub fn memory(&self) -> &Memory
        ensures { result.now ≡ self.now.memory }
    {
        &self.memory
    }

    /// The memory, the head and the segments.
    pub fn parts(self) -> (Memory, u64, Segments)
        ensures memory { result.0 ≡ self.memory }
        ensures head { result.1 ≡ self.head }
        ensures segments { result.2 ≡ self.segments }
    {
        let CrashLoaded {
            memory,
            head,
            segments,
        } = self;
        (memory, head, segments)
    }

    /// Tests the list. Ok exactly where it is accepted: the head is a done word, and each page of the segments holds what
    /// it is to have. It takes no memory, and the load is as it was.
    pub fn accept(self) -> Result<AcceptedCrash, (CrashLoaded, ListFault)>
        ensures accepted { IfOk result (λ a.
            (a ≡ self) × IsAcceptedCrash (at self.memory) (want self.segments) self.head) }
        ensures refused { IfErr result (λ e.
            IsAcceptedCrash (at self.memory) (want self.segments) self.head → ⊥) }
        ensures fault { IfErr result (λ e.
            (e.1.word ≡ 0) ×
            (crash_reason (at self.memory) (want self.segments) (pages self.segments)
            (decode self.head) ≡ Some e.1.why)) }
        ensures given_back { IfErr result (λ e. e.0 ≡ self) }
    {
        match check_crash(&self.memory, self.head, &self.segments) {
            Ok(()) => Ok(AcceptedCrash { loaded: self }),
            Err(fault) => Err((self, fault)),
        }
    }
}

impl AcceptedCrash {
    /// The memory.
    pub fn memory(&self) -> &Memory
        ensures { result.now ≡ self.now.memory }
    {
        self.loaded.memory()
    }

    /// Runs the list: one step, which changes nothing. It has no refusal and takes no memory.
    pub fn exec(self) -> RanPlain
        ensures steps { result.steps ≡ 1 }
        ensures memory { (p : ℕ) → at result.memory p ≡ at self.memory p }
        ensures sets { result.memory.sets ≡ self.memory.sets }
        ensures run { CrashRunsTo self 1 result.memory }
        // Held pages are the same too.
        ensures unchanged { result.memory ≡ self.memory }
    {
        let (mut memory, head, _) = self.loaded.parts();
        let steps = run_to_end(&mut memory, head, Mode::Plain, 1);
        RanPlain::new(memory, steps)
    }
}

// A crash kernel has no list to run, as nothing can be relied on when it starts: its pages lie in an area that the running
// kernel never uses, from the load on, and the head is a done word. So what a run must bring about elsewhere must
// stand here already, and what is tested is that it does.
//
// All pages are held before the first is written: a refusal has changed nothing that is read.
/// Puts each page of the segments in its place: it becomes what it is to have, every other page stays, and the head is a
/// done word. The list is accepted. The pages are held then, and no other page comes to be so. Refused for want of memory
/// alone, with what memory reads as unchanged; some of the pages may be held then.
pub fn load_crash(
    alloc: Global,
    mut memory: Memory,
    segments: Segments,
) -> Result<CrashLoaded, (Memory, Segments)>
    ensures loaded { IfOk result (λ c.
        (p : ℕ) → at c.memory p ≡ overlay (at memory) (want segments) p) }
    ensures head { IfOk result (λ c. c.head ≡ 4) }
    ensures segments { IfOk result (λ c. c.segments ≡ segments) }
    ensures accepted { IfOk result (λ c. IsAcceptedCrash (at c.memory) (want c.segments) c.head) }
    ensures given_back { IfErr result (λ r.
        ((p : ℕ) → at r.0 p ≡ at memory p) × (r.0.sets ≡ memory.sets) × (r.1 ≡ segments)) }
    ensures held { IfOk result (λ c. (q : ℕ) →
        IsHeld c.memory q ↔ (IsHeld memory q ⊎ (is_destination segments q ≡ true))) }
    ensures held_back { IfErr result (λ r. (q : ℕ) → IsHeld memory q → IsHeld r.0 q) }
    ensures no_other { IfErr result (λ r. (q : ℕ) → IsHeld r.0 q →
        IsHeld memory q ⊎ (is_destination segments q ≡ true)) }
{
    match hold_set(alloc, &mut memory, segments.spans()) {
        Ok(()) => {
            lay_set(&mut memory, &segments, segments.spans());
            Ok(CrashLoaded::from_parts(memory, DONE_WORD, segments))
        }
        Err(_) => Err((memory, segments)),
    }
}
