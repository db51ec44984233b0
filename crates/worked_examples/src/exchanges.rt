//! The exchange of pages where context is preserved, once and twice. Page 2 is its own source, page 3 comes from page 13,
//! and page 11 is the swap page.

ghost use Rattle.std.specs.Prelude.{◌≡◌, ◌≢◌, ℕ, List};
ghost use Rattle.kx_pages.specs.Bytes.{Mem};
ghost use Rattle.page_memory.specs.Memory.{put};
ghost use Rattle.load_states.specs.Exchange.{exchange};
ghost use Rattle.worked_examples.specs.Runs.{one_pair_at_home};

/// Page 3 and page 13 have each other's bytes, page 2 has its own, the swap page has what page 13 had, and every other
/// page what it had.
pub fn exchanged_once()
    ensures destination { (M : Mem) → exchange M one_pair_at_home 0x11 3 ≡ M 0x13 }
    ensures source { (M : Mem) → exchange M one_pair_at_home 0x11 0x13 ≡ M 3 }
    ensures own_source { (M : Mem) → exchange M one_pair_at_home 0x11 2 ≡ M 2 }
    ensures swap_page { (M : Mem) → exchange M one_pair_at_home 0x11 0x11 ≡ M 0x13 }
    ensures link_page { (M : Mem) → exchange M one_pair_at_home 0x11 0x12 ≡ M 0x12 }
{}

/// The second exchange gives each page but the swap page what it had at first.
pub fn exchanged_twice()
    ensures restored { (M : Mem) (p : ℕ) → p ≢ 0x11
        → exchange (exchange M one_pair_at_home 0x11) one_pair_at_home 0x11 p ≡ M p }
    ensures swap_page { (M : Mem)
        → exchange (exchange M one_pair_at_home 0x11) one_pair_at_home 0x11 0x11 ≡ M 3 }
{}

/// Between the two, page 2 is written: it keeps the write, and the other pair goes back.
pub fn own_source_keeps_a_write()
    ensures own_source { (M : Mem) (z : List ℕ)
        → exchange (put (exchange M one_pair_at_home 0x11) 2 z) one_pair_at_home 0x11 2 ≡ z }
    ensures destination { (M : Mem) (z : List ℕ)
        → exchange (put (exchange M one_pair_at_home 0x11) 2 z) one_pair_at_home 0x11 3 ≡ M 3 }
    ensures source { (M : Mem) (z : List ℕ)
        → exchange (put (exchange M one_pair_at_home 0x11) 2 z) one_pair_at_home 0x11 0x13
        ≡ M 0x13 }
{}

/// Between the two, page 3 is written: it is as before the first, and its source gets the write.
pub fn source_gets_a_write()
    ensures destination { (M : Mem) (z : List ℕ)
        → exchange (put (exchange M one_pair_at_home 0x11) 3 z) one_pair_at_home 0x11 3 ≡ M 3 }
    ensures source { (M : Mem) (z : List ℕ)
        → exchange (put (exchange M one_pair_at_home 0x11) 3 z) one_pair_at_home 0x11 0x13 ≡ z }
{}
