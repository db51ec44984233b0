//! Pages and their numbers at the limits: the first and the last that pass, and those beside them.

ghost use Rattle.std.specs.Prelude.{◌≡◌, ◌∷◌, [], true, false, map, slice_index};
ghost use Rattle.kx_pages.specs.Lists.{Distinct, Has, count, destinations, has, sources};
ghost use Rattle.kx_pages.specs.Needs.{link_pages_for};
ghost use Rattle.kx_pages.specs.Numbers.{is_page_address};
ghost use Rattle.kx_pages.specs.Ranges.{count_met, meets_page, pages_for, whole_pages};
ghost use Rattle.kx_pages.specs.Spans.{in_span, in_spans, pages};
ghost use Rattle.segments.specs.Values.{is_destination, is_page_of_segment};
ghost use Rattle.worked_examples.specs.Kernels.{pages_at, two_pages};

/// Three pages from page 2 on, and one more: which pages are of them, and how many they are.
pub fn spans_of_pages()
    ensures one { map (in_span (record { first = 2; count = 3 })) (1 ∷ 2 ∷ 4 ∷ 5 ∷ [])
        ≡ false ∷ true ∷ true ∷ false ∷ [] }
    ensures two { map
        (in_spans (record { first = 2; count = 3 } ∷ record { first = 9; count = 1 } ∷ []))
        (1 ∷ 4 ∷ 5 ∷ 8 ∷ 9 ∷ 10 ∷ []) ≡ false ∷ true ∷ false ∷ false ∷ true ∷ false ∷ [] }
    ensures pages { pages (record { first = 2; count = 3 } ∷ record { first = 9; count = 1 } ∷ [])
        ≡ 4 }
    ensures none { pages [] ≡ 0 }
{}

/// How many pages so many bytes take, and which pages have one of the addresses from 1fff to 3000.
pub fn pages_of_bytes()
    ensures pages { map pages_for (0 ∷ 1 ∷ 0x1000 ∷ 0x1001 ∷ 0x200_0000 ∷ [])
        ≡ 0 ∷ 1 ∷ 1 ∷ 2 ∷ 0x2000 ∷ [] }
    ensures whole { map whole_pages (0 ∷ 1 ∷ 0x1000 ∷ 0x1001 ∷ [])
        ≡ 0 ∷ 0x1000 ∷ 0x1000 ∷ 0x2000 ∷ [] }
    ensures met { map (meets_page 0x1fff 0x3001) (0 ∷ 1 ∷ 2 ∷ 3 ∷ 4 ∷ [])
        ≡ false ∷ true ∷ true ∷ true ∷ false ∷ [] }
    ensures count { count_met 0x1fff 0x3001 ≡ 3 }
    ensures page { count_met 0x2000 0x3000 ≡ 1 }
    ensures no_address { count_met 0x2000 0x2000 ≡ 0 }
    ensures addresses { map is_page_address
        (0 ∷ 0x800 ∷ 0x1000 ∷ 0x3fff_ffff_f000 ∷ 0x4000_0000_0000 ∷ [])
        ≡ true ∷ false ∷ true ∷ true ∷ false ∷ [] }
{}

/// A segment of two pages, and a second one far from it: which pages are theirs. A link page has 511 entries.
pub fn pages_of_segments()
    ensures one { map (is_page_of_segment (pages_at 2 2)) (1 ∷ 2 ∷ 3 ∷ 4 ∷ [])
        ≡ false ∷ true ∷ true ∷ false ∷ [] }
    ensures some { map (is_destination (pages_at 0x100 1 ∷ two_pages 2))
        (1 ∷ 2 ∷ 3 ∷ 4 ∷ 0x100 ∷ []) ≡ false ∷ true ∷ true ∷ false ∷ true ∷ [] }
    ensures link_pages { map link_pages_for (0 ∷ 1 ∷ 511 ∷ 512 ∷ 1022 ∷ 1023 ∷ [])
        ≡ 0 ∷ 1 ∷ 1 ∷ 2 ∷ 2 ∷ 3 ∷ [] }
{}

/// Lists of numbers, which read as 0 behind their end, and of pairs of a destination and a source.
pub fn numbers_in_lists()
    ensures counted { map (λ n. count n (3 ∷ 4 ∷ 3 ∷ [])) (2 ∷ 3 ∷ 4 ∷ []) ≡ 0 ∷ 2 ∷ 1 ∷ [] }
    ensures there { map (λ n. has n (3 ∷ 4 ∷ 3 ∷ [])) (2 ∷ 3 ∷ 4 ∷ []) ≡ false ∷ true ∷ true ∷ [] }
    ensures first { Has 3 (3 ∷ 4 ∷ []) }
    ensures last { Has 4 (3 ∷ 4 ∷ []) }
    ensures no_other { Has 5 (3 ∷ 4 ∷ []) → ⊥ }
    ensures none_twice { Distinct (3 ∷ 4 ∷ 5 ∷ []) }
    ensures first_twice { Distinct (3 ∷ 4 ∷ 3 ∷ []) → ⊥ }
    ensures second_twice { Distinct (3 ∷ 4 ∷ 4 ∷ []) → ⊥ }
    ensures places { map (slice_index (5 ∷ 6 ∷ [])) (0 ∷ 1 ∷ 2 ∷ []) ≡ 5 ∷ 6 ∷ 0 ∷ [] }
    ensures destinations { destinations ((2, 0x12) ∷ (3, 0x13) ∷ []) ≡ 2 ∷ 3 ∷ [] }
    ensures sources { sources ((2, 0x12) ∷ (3, 0x13) ∷ []) ≡ 0x12 ∷ 0x13 ∷ [] }
{}
