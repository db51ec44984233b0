//! Kernels whose pages lie in memory already: the order of the pairs, the memory, and a pool with too few pages.

ghost use Rattle.std.specs.Prelude.{◌≡◌, ◌∷◌, [], codes};
ghost use Rattle.kx_pages.specs.Bytes.{page_of};
ghost use Rattle.resident_planner.specs.Laid.{plan_memory};
ghost use Rattle.resident_planner.specs.Plan.{Before, Falling, Planned};
ghost use Rattle.resident_planner.specs.Refusals.{AreTooFew, AreWantedPages, IsFault};
ghost use Rattle.resident_planner.specs.Stretches.{Rising};
ghost use Rattle.resident_planner.specs.declared.fault.ResidentFault.TheVariants as faults;
ghost use Rattle.segments.specs.Values.{want};
ghost use Rattle.worked_plans.specs.Residents.{two_pages, both_ways, resident, words, exchanged};

/// Pages rise where each is below all behind it. Those of a kernel are these, and no other.
pub fn pages_in_rising_order()
    ensures rising { Rising (1 ∷ 5 ∷ 9 ∷ []) }
    ensures not_rising { Rising (1 ∷ 9 ∷ 5 ∷ []) → ⊥ }
    ensures repeated { Rising (1 ∷ 1 ∷ []) → ⊥ }
    ensures wanted { AreWantedPages two_pages (2 ∷ 3 ∷ []) }
    ensures falling { AreWantedPages two_pages (3 ∷ 2 ∷ []) → ⊥ }
    ensures too_few { AreWantedPages two_pages (2 ∷ []) → ⊥ }
{}

/// Pages 2 and 3 hold each other's bytes: page 3 has page 2 as its source, and rank 1; page 2 gets a page of the pool, and
/// has rank 0. So page 3 comes first.
pub fn order_of_pairs()
    ensures before { Before resident (2 ∷ 3 ∷ []) 3 2 }
    ensures behind { Before resident (2 ∷ 3 ∷ []) 2 3 → ⊥ }
    ensures falling { Falling resident (2 ∷ 3 ∷ []) (3 ∷ 2 ∷ []) }
    ensures not_falling { Falling resident (2 ∷ 3 ∷ []) (2 ∷ 3 ∷ []) → ⊥ }
{}

/// The plan of the pairs, and the memory: the words at the link page, `b` at the page of the pool that is a source, and
/// every other page as it was.
pub fn planned_pairs()
    ensures planned { Planned resident (2 ∷ 3 ∷ []) (0x12 ∷ []) ((3, 2) ∷ (2, 0x12) ∷ []) }
    ensures wrong_source { Planned resident (2 ∷ 3 ∷ []) (0x12 ∷ []) ((3, 2) ∷ (2, 3) ∷ []) → ⊥ }
    ensures source { plan_memory exchanged (want two_pages) resident (2 ∷ 3 ∷ []) (0x11 ∷ [])
        (0x12 ∷ []) ((3, 2) ∷ (2, 0x12) ∷ []) 0x12
        ≡ page_of (codes "b") }
    ensures link { plan_memory exchanged (want two_pages) resident (2 ∷ 3 ∷ []) (0x11 ∷ [])
        (0x12 ∷ []) ((3, 2) ∷ (2, 0x12) ∷ []) 0x11
        ≡ words }
    ensures other { plan_memory exchanged (want two_pages) resident (2 ∷ 3 ∷ []) (0x11 ∷ [])
        (0x12 ∷ []) ((3, 2) ∷ (2, 0x12) ∷ []) 2
        ≡ exchanged 2 }
{}

/// The list takes three pages: the control page, a link page and a source. Of the pool 10-11 two are left, and that is the
/// fault, where no pair is refused.
pub fn pool_with_too_few_pages()
    ensures too_few { AreTooFew two_pages (0x10 ∷ 0x11 ∷ []) both_ways 2 3 }
    ensures enough { AreTooFew two_pages (0x10 ∷ 0x11 ∷ 0x12 ∷ []) both_ways 3 3 → ⊥ }
    ensures fault { IsFault exchanged two_pages (0x10 ∷ 0x11 ∷ []) both_ways (faults.NoPages 2 3) }
    ensures stale { IsFault exchanged two_pages (0x10 ∷ 0x11 ∷ []) ((2, 2) ∷ []) (faults.Stale 2) }
    ensures not_wanted { IsFault exchanged two_pages [] ((4, 2) ∷ []) (faults.NotWanted 4) }
    ensures repeats { IsFault exchanged two_pages [] ((2, 3) ∷ (2, 3) ∷ []) (faults.Repeats 2) }
    ensures memory { IsFault exchanged two_pages [] both_ways faults.Memory → ⊥ }
    ensures another { IsFault exchanged two_pages [] ((4, 2) ∷ []) (faults.NotWanted 5) → ⊥ }
{}
