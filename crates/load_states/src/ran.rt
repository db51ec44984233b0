//! What runs leave.

ghost use Rattle.std.specs.Prelude.{◌≡◌, ◌≢◌, ℕ, ◌≤◌, IsSome, length};
ghost use Rattle.std.specs.List.{AllByRecursion};
ghost use Rattle.kx_pages.specs.Lists.{Has, sources};
ghost use Rattle.kx_pages.specs.Bytes.{page_of, Mem};
ghost use Rattle.page_memory.specs.Contents.{at};
ghost use Rattle.page_memory.specs.inner.Contents.{after_set};
ghost use Rattle.segments.specs.Values.{want};
ghost use Rattle.load_states.specs.Exchange.{exchange};
ghost use Rattle.load_states.specs.States.{swap_of, with_memory};
ghost use Rattle.load_states.specs.inner.States.{checked_of};
ghost use Rattle.load_states.specs.inner.Ready.{IsToGoBack};
ghost use Rattle.load_states.specs.inner.Runs.{IsTouched, RestoresOthers, RunsTo};

use crate::loaded::Loaded;
use crate::run::run_to_end;
use kx_pages::Page;
use list_checker::Accept;
use page_memory::Memory;
use std::marker::Model;

/// The memory after the run of a plain list or of a crash list.
#[derive(Drop)]
pub struct RanPlain {
    memory: Memory,
    steps: u64,
}

impl Model for RanPlain {
    ghost use Rattle.load_states.specs.inner.States.{Ran, ran_code};

    ghost Value = { Ran };

    ghost coded = { ran_code };

    ghost view = { λ s. record { memory = s.memory; steps = s.steps } };
}

impl RanPlain {
    pub(crate) fn new(memory: Memory, steps: u64) -> RanPlain
        ensures { result ≡ record { memory = memory; steps = steps } }
    {
        RanPlain { memory, steps }
    }

    /// How many steps the run took.
    pub fn steps(&self) -> u64
        ensures { result ≡ self.now.steps }
    {
        self.steps
    }

    /// The memory after the run.
    pub fn memory(&self) -> &Memory
        ensures { result.now ≡ self.now.memory }
    {
        &self.memory
    }

    /// The memory after the run.
    pub fn into_memory(self) -> Memory
        ensures { result ≡ self.memory }
    {
        self.memory
    }
}

/// The memory after the first run of a list with context preserved. Its list can run again.
#[derive(Drop)]
pub struct RanKept {
    loaded: Loaded,
    accept: Accept,
}

impl Model for RanKept {
    ghost use Rattle.load_states.specs.States.{Checked};
    ghost use Rattle.load_states.specs.inner.States.{checked_code, checked_of};
    ghost use Rattle.load_states.specs.inner.Ready.{IsToGoBack};

    ghost Value = { Checked };

    ghost coded = { checked_code };

    ghost view = { λ s. checked_of s.loaded s.accept };

    ghost invariant = { λ s. IsToGoBack (checked_of s.loaded s.accept) };
}

impl RanKept {
    pub(crate) fn new(loaded: Loaded, accept: Accept) -> RanKept
        requires { IsToGoBack (checked_of loaded accept) }
        ensures { result ≡ checked_of loaded accept }
    {
        RanKept { loaded, accept }
    }

    /// How many steps the run took: the words of the walk.
    pub fn steps(&self) -> u64
        ensures { result ≡ self.now.words }
    {
        self.accept.words
    }

    /// The memory as it now is.
    pub fn memory(&self) -> &Memory
        ensures { result.now ≡ self.now.load.memory }
    {
        self.loaded.memory()
    }

    /// The memory as it now is.
    pub fn into_memory(self) -> Memory
        ensures { result ≡ self.load.memory }
    {
        let (memory, _, _, _) = self.loaded.parts();
        memory
    }

    /// Stands for what the new kernel writes: the page, which is one of the segments', becomes these at most 4,096 bytes,
    /// then zeros.
    pub fn touch(&mut self, p: Page, bytes: &[u8])
        requires wanted { IsSome (want self.old.load.segments p) }
        requires fits { length bytes.now ≤ 4096 }
        ensures { self.new ≡ record self.old {
          load = with_memory self.old.load
              (after_set self.old.load.memory p (page_of bytes.now));
        } }
    {
        self.loaded.set(p, bytes);
    }

    /// Runs the list again, from the memory as it now is. It has no refusal and takes no memory. The pairs are exchanged
    /// again: where nothing was written since the first run, each page but the swap page is as it was before that run.
    pub fn back(self) -> Back
        ensures steps { result.steps ≡ self.words }
        ensures run { RunsTo self.load self.words result.load.memory }
        ensures memory { (p : ℕ) →
            at result.load.memory p ≡ exchange (at self.load.memory) self.pairs
            (swap_of self.load) p }
        ensures restored { (M : Mem) →
            ((q : ℕ) → at self.load.memory q ≡ exchange M self.pairs (swap_of self.load) q) →
            (p : ℕ) → p ≢ swap_of self.load → at result.load.memory p ≡ M p }
        // Where at most pages of the segments were written since the first run, from memory M.
        ensures undone { (M : Mem) → IsTouched M self → (p : ℕ) → p ≢ swap_of self.load →
            (Has p (sources self.pairs) → ⊥) → at result.load.memory p ≡ M p }
        // Of a list that `Filling::seal` made, whatever was written to pages of the segments.
        ensures others { RestoresOthers self result }
        // Each source holds what its destination held.
        ensures sources { AllByRecursion (λ q.
            at result.load.memory q.1 ≡ at self.load.memory q.0) self.pairs }
        ensures sets { result.load.memory.sets ≡ self.load.memory.sets }
        ensures rest { result.load ≡ with_memory self.load result.load.memory }
    {
        let RanKept { loaded, accept } = self;
        let (mut memory, pool, image, segments) = loaded.parts();
        let steps = run_to_end(&mut memory, image.head, image.mode, accept.words);
        Back {
            loaded: Loaded::from_parts(memory, pool, image, segments),
            steps,
        }
    }
}

/// The load after the second run.
#[derive(Drop)]
pub struct Back {
    loaded: Loaded,
    steps: u64,
}

impl Model for Back {
    ghost use Rattle.load_states.specs.inner.States.{Returned, returned_code};

    ghost Value = { Returned };

    ghost coded = { returned_code };

    ghost view = { λ s. record { load = s.loaded; steps = s.steps } };
}

impl Back {
    /// How many steps the second run took.
    pub fn steps(&self) -> u64
        ensures { result ≡ self.now.steps }
    {
        self.steps
    }

    /// The memory after the second run.
    pub fn memory(&self) -> &Memory
        ensures { result.now ≡ self.now.load.memory }
    {
        self.loaded.memory()
    }

    /// The load, whose list may be accepted anew.
    pub fn loaded(self) -> Loaded
        ensures { result ≡ self.load }
    {
        self.loaded
    }
}
