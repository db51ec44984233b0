//! Kernels whose pages lie in memory already: the text of the pairs, cycles, sources, and the list.

ghost use Rattle.std.specs.Prelude.{◌≡◌, ◌∷◌, [], true, false, Some, None, Ok, Err, codes, map};
ghost use Rattle.kx_pages.specs.Bytes.{page_of};
ghost use Rattle.kx_pages.specs.declared.item.Item.TheVariants.{Link, Destination, Source, Done};
ghost use Rattle.segments.specs.Values.{is_destination, want};
ghost use Rattle.resident_planner.specs.Cycles.{cycles, deviating};
ghost use Rattle.resident_planner.specs.Laid.{given_sources, plan_head, plan_items};
ghost use Rattle.resident_planner.specs.Pairs.{pairs_reading};
ghost use Rattle.resident_planner.specs.Plan.{is_fresh, rank, source};
ghost use Rattle.resident_planner.specs.Refusals.{need_of, pairs_refusal, resident_of, usable};
ghost use Rattle.resident_planner.specs.declared.fault.PairsFault.TheVariants as texts;
ghost use Rattle.resident_planner.specs.declared.fault.ResidentFault.TheVariants as faults;
ghost use Rattle.worked_examples.specs.Kernels.{two_pages};

/// A line is a destination and the page that holds what it is to have.
pub fn texts_of_pairs()
    ensures two { pairs_reading (codes "2 3\n3 2")
        ≡ Ok (record { destination = 2; source = 3 } ∷ record { destination = 3; source = 2 }
        ∷ []) }
    ensures none { pairs_reading [] ≡ Ok [] }
    ensures no_source { pairs_reading (codes "2") ≡ Err (texts.BadLine 1) }
    ensures past_the_limit { pairs_reading (codes "2 3\n2 400000000") ≡ Err (texts.BadLine 2) }
{}

/// Pages 2 and 3 hold each other's bytes: that is one cycle. Its least page comes from a page of the pool, and is copied
/// last; page 3 comes from page 2 before that.
pub fn pages_that_changed_places()
    ensures cycles { cycles (resident_of ((2, 3) ∷ (3, 2) ∷ [])) (2 ∷ 3 ∷ []) ≡ 1 }
    ensures fresh { map (is_fresh (resident_of ((2, 3) ∷ (3, 2) ∷ [])) (2 ∷ 3 ∷ [])) (2 ∷ 3 ∷ [])
        ≡ true ∷ false ∷ [] }
    ensures ranks { map (rank (resident_of ((2, 3) ∷ (3, 2) ∷ [])) (2 ∷ 3 ∷ [])) (2 ∷ 3 ∷ [])
        ≡ 0 ∷ 1 ∷ [] }
    ensures sources { map (source (resident_of ((2, 3) ∷ (3, 2) ∷ [])) (2 ∷ 3 ∷ []) (0x12 ∷ []))
        (2 ∷ 3 ∷ []) ≡ Some 0x12 ∷ Some 2 ∷ [] }
    ensures given { given_sources (resident_of ((2, 3) ∷ (3, 2) ∷ [])) (2 ∷ 3 ∷ []) (0x12 ∷ [])
        ≡ (2, 0x12) ∷ [] }
    ensures list { plan_items (0x11 ∷ []) ((3, 2) ∷ (2, 0x12) ∷ [])
        ≡ Link 0x11 ∷ Destination 3 ∷ Source 2 ∷ Destination 2 ∷ Source 0x12 ∷ Done 0 ∷ [] }
    ensures head { plan_head (0x11 ∷ []) ≡ 0x11002 }
    ensures copied { deviating (resident_of ((2, 3) ∷ (3, 2) ∷ [])) ((3, 2) ∷ (2, 0x12) ∷ []) ≡ 1 }
    ensures need { need_of 2 2 1 ≡ 3 }
{}

/// Page 3 alone is resident, in page 2: no cycle, and no page is copied that is resident.
pub fn page_that_is_resident()
    ensures cycles { cycles (resident_of ((3, 2) ∷ [])) (2 ∷ 3 ∷ []) ≡ 0 }
    ensures sources { map (source (resident_of ((3, 2) ∷ [])) (2 ∷ 3 ∷ []) (0x12 ∷ [])) (2 ∷ 3 ∷ [])
        ≡ Some 0x12 ∷ Some 2 ∷ [] }
    ensures copied { deviating (resident_of ((3, 2) ∷ [])) ((3, 2) ∷ (2, 0x12) ∷ []) ≡ 0 }
    ensures need { need_of 2 1 0 ≡ 3 }
    ensures usable { usable (is_destination (two_pages 2)) ((3, 4) ∷ []) (2 ∷ 3 ∷ 4 ∷ 5 ∷ [])
        ≡ 5 ∷ [] }
{}

/// The first pair that is refused, over a memory in which every page begins with `b`.
pub fn refused_pairs()
    ensures stale { pairs_refusal (λ p. page_of (codes "b")) (want (two_pages 2)) []
        ((2, 5) ∷ (3, 5) ∷ []) ≡ Some (faults.Stale 3) }
    ensures repeats { pairs_refusal (λ p. page_of (codes "b")) (want (two_pages 2)) []
        ((2, 5) ∷ (2, 6) ∷ []) ≡ Some (faults.Repeats 2) }
    ensures unwanted { pairs_refusal (λ p. page_of (codes "b")) (want (two_pages 2)) []
        ((4, 5) ∷ []) ≡ Some (faults.NotWanted 4) }
    ensures fine { pairs_refusal (λ p. page_of (codes "b")) (want (two_pages 2)) []
        ((2, 5) ∷ []) ≡ None }
{}
