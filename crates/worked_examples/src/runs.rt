//! How the machine runs lists, step by step.

ghost use Rattle.std.specs.Prelude.{◌≡◌, ℕ, ◌∷◌, [], codes};
ghost use Rattle.kx_pages.specs.declared.image.Mode.TheVariants.{Plain, Kept};
ghost use Rattle.kx_pages.specs.Bytes.{page_of, Mem};
ghost use Rattle.page_memory.specs.Contents.{Contents, at};
ghost use Rattle.page_memory.specs.inner.Memory.{copied_page};
ghost use Rattle.segments.specs.Values.{want, overlay};
ghost use Rattle.relocate_machine.specs.declared.step.Outcome.TheVariants.{Done, Running, Off};
ghost use Rattle.load_states.specs.Exchange.{exchange};
ghost use Rattle.load_states.specs.Runs.{EndsAfter};
ghost use Rattle.worked_examples.specs.Kernels.{three_bytes, two_pages};
ghost use Rattle.worked_examples.specs.Lists.{HasWords};
ghost use Rattle.worked_examples.specs.Runs.{ComesOut, load_with, moved_in_turn, one_pair_at_home};

/// The list of a kernel of three bytes takes four steps, and copies page 12 to page 2: memory is then what the kernel
/// wants, page for page.
pub fn one_page_runs()
    ensures run { (m : Contents) → HasWords (at m) 0x11000 (0x2001 ∷ 0x12008 ∷ 4 ∷ [])
        → ComesOut m 0x11002 Plain 10 (Done 4) (copied_page (at m) 0x12 2) }
    ensures left { (M : Mem) → M 0x12 ≡ page_of (codes "abc") → (p : ℕ)
        → copied_page M 0x12 2 p ≡ overlay M (want three_bytes) p }
{}

/// A list without a source takes three steps, and changes nothing.
pub fn run_without_a_source()
    ensures run { (m : Contents) → HasWords (at m) 0x11000 (0x2001 ∷ 4 ∷ [])
        → ComesOut m 0x11002 Plain 10 (Done 3) (at m) }
    ensures stopped { (m : Contents) → HasWords (at m) 0x11000 (0x2001 ∷ 4 ∷ [])
        → ComesOut m 0x11002 Plain 2 (Running 2) (at m) }
{}

/// A list in which page 2 is its own source: it is copied onto itself, and page 3 from page 12.
pub fn exchanged_list_runs()
    ensures run { (m : Contents) → HasWords (at m) 0x11000 (0x2001 ∷ 0x2008 ∷ 0x12008 ∷ 4 ∷ [])
        → ComesOut m 0x11002 Plain 10 (Done 5) (copied_page (copied_page (at m) 2 2) 0x12 3) }
    ensures own_source { (M : Mem) → copied_page (copied_page M 2 2) 0x12 3 2 ≡ M 2 }
    ensures other { (M : Mem) → copied_page (copied_page M 2 2) 0x12 3 3 ≡ M 0x12 }
{}

/// A kernel one page below its destination, its last page first: both pages arrive, and memory is what the kernel wants.
pub fn last_page_first_runs()
    ensures run { (m : Contents)
        → HasWords (at m) 0x20000 (0x4001 ∷ 0x3008 ∷ 0x3001 ∷ 0x2008 ∷ 4 ∷ [])
        → ComesOut m 0x20002 Plain 10 (Done 6) (copied_page (copied_page (at m) 3 4) 2 3) }
    ensures left { (M : Mem) → M 2 ≡ page_of (codes "b") → M 3 ≡ page_of (codes "c") → (p : ℕ)
        → copied_page (copied_page M 3 4) 2 3 p ≡ overlay M (want (two_pages 3)) p }
{}

/// The same kernel with its first page first: both of its pages get what the first was.
pub fn first_page_first_runs()
    ensures run { (m : Contents) → HasWords (at m) 0x20000 (0x3001 ∷ 0x2008 ∷ 0x3008 ∷ 4 ∷ [])
        → ComesOut m 0x20002 Plain 10 (Done 5) (copied_page (copied_page (at m) 2 3) 3 4) }
    ensures first { (M : Mem) → copied_page (copied_page M 2 3) 3 4 3 ≡ M 2 }
    ensures second { (M : Mem) → copied_page (copied_page M 2 3) 3 4 4 ≡ M 2 }
{}

/// A list with context preserved, of which page 2 is its own source: what its copies leave is the exchange of its pairs.
pub fn kept_list_runs()
    ensures run { (m : Contents) → HasWords (at m) 0x12000 (0x2001 ∷ 0x2008 ∷ 0x13008 ∷ 4 ∷ [])
        → ComesOut m 0x12002 (Kept 0x11) 10 (Done 5) (moved_in_turn (at m)) }
    ensures exchanged { (M : Mem) (p : ℕ) → moved_in_turn M p ≡ exchange M one_pair_at_home 0x11 p }
{}

/// A link page that links to itself: the machine goes round without end, and changes nothing.
pub fn round_and_round()
    ensures run { (m : Contents) → HasWords (at m) 0x20000 (0x20002 ∷ []) → (n : ℕ)
        → ComesOut m 0x20002 Plain n (Running n) (at m) }
    ensures thousand { (m : Contents) → HasWords (at m) 0x20000 (0x20002 ∷ [])
        → ComesOut m 0x20002 Plain 1000 (Running 1000) (at m) }
{}

/// A word with the flags of a destination and of a source is taken for a destination.
pub fn destination_flag_comes_first()
    ensures run { (m : Contents) → HasWords (at m) 0x20000 (0x2009 ∷ 0x30008 ∷ 4 ∷ [])
        → ComesOut m 0x20002 Plain 0x10 (Done 4) (copied_page (at m) 0x30 2) }
{}

/// A load whose list has four words ends after four steps, and not after three. A head that is the done word is the whole
/// list.
pub fn load_that_ends()
    ensures four { (m : Contents) → HasWords (at m) 0x11000 (0x2001 ∷ 0x12008 ∷ 4 ∷ [])
        → EndsAfter (load_with m 0x11002) 4 }
    ensures not_three { (m : Contents) → HasWords (at m) 0x11000 (0x2001 ∷ 0x12008 ∷ 4 ∷ [])
        → EndsAfter (load_with m 0x11002) 3 → ⊥ }
    ensures one { (m : Contents) → EndsAfter (load_with m 4) 1 }
    ensures not_two { (m : Contents) → EndsAfter (load_with m 4) 2 → ⊥ }
{}

/// A head that links to the first address past the limit: the step after it cannot be taken.
pub fn off_past_the_limit()
    ensures run { (m : Contents)
        → ComesOut m 0x4000_0000_0002 Plain 10 (Off 0x4000_0000_0000 1) (at m) }
{}

/// A head that is a destination: the machine goes on with the first word of page 0.
pub fn head_that_is_no_link()
    ensures run { (m : Contents) → HasWords (at m) 0 (0x12008 ∷ 4 ∷ [])
        → ComesOut m 0x2001 Plain 10 (Done 3) (copied_page (at m) 0x12 2) }
{}
