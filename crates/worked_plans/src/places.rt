//! Addresses that fit, and the place of a part.

ghost use Rattle.std.specs.Prelude.{◌≡◌, ◌==◌, ◌∷◌, ◌^◌, ◌-◌, [], true, false, Some, None, Ok, Err, codes, map, nat_le, nat_lt};
ghost use Rattle.hole_search.specs.declared.search.End.TheVariants.{Least, Greatest};
ghost use Rattle.kexec_plan.specs.Holes.{is_free, are_free, greatest, least, hole_from, hole};
ghost use Rattle.kexec_plan.specs.Places.{site_at, place, is_met, taken_by, pages_at, taking, place_some};
ghost use Rattle.kexec_plan.specs.Table.{highest};
ghost use Rattle.plan_faults.specs.declared.fault.Part.TheVariants as parts;
ghost use Rattle.plan_faults.specs.declared.fault.PlanFault.TheVariants as faults;
ghost use Rattle.worked_plans.specs.Machines.{two_to_six, page_four, kernel_fits, kernel_hole};

/// Pages 2 to 6 are RAM, and page 4 is taken.
pub fn addresses_that_are_free()
    ensures free { map (is_free two_to_six page_four)
        (1 ∷ 2 ∷ 3 ∷ 4 ∷ 5 ∷ 6 ∷ 7 ∷ [])
        ≡ false ∷ true ∷ true ∷ false ∷ true ∷ true ∷ false ∷ [] }
    ensures two_pages { map (λ a. are_free two_to_six page_four a 0x2000)
        (0x1000 ∷ 0x2000 ∷ 0x3000 ∷ 0x4000 ∷ 0x5000 ∷ 0x6000 ∷ [])
        ≡ false ∷ true ∷ false ∷ false ∷ true ∷ false ∷ [] }
    ensures a_byte { map (λ a. are_free two_to_six page_four a 1)
        (0x1fff ∷ 0x2000 ∷ 0x3fff ∷ 0x4000 ∷ 0x6fff ∷ 0x7000 ∷ [])
        ≡ false ∷ true ∷ true ∷ false ∷ true ∷ false ∷ [] }
    ensures across { map (λ a. are_free two_to_six page_four a 2)
        (0x2fff ∷ 0x3fff ∷ [])
        ≡ true ∷ false ∷ [] }
{}

/// An address fits by its alignment, from the least address on, up to the greatest of the last byte, in pages that are
/// free.
pub fn addresses_that_fit()
    ensures here { kernel_fits 1 0x800 0x2800 0x37ff 0x2800 ≡ true }
    ensures unaligned { kernel_fits 1 0x800 0x2000 0x4000 0x2400
        ≡ false }
    ensures too_low { kernel_fits 1 0x800 0x2801 0x4000 0x2800
        ≡ false }
    ensures too_high { kernel_fits 1 0x800 0x2800 0x37fe 0x2800
        ≡ false }
    ensures taken { kernel_fits 1 0x800 0x2800 0x8000 0x3800
        ≡ false }
{}

/// The greatest number that passes, and the least.
pub fn numbers_that_pass()
    ensures greatest { greatest (λ n. nat_lt n 3) 10 ≡ Some 2 }
    ensures not_the_bound { greatest (λ n. n == 3) 3 ≡ None }
    ensures up_to_the_bound { greatest (λ n. n == 3) 4 ≡ Some 3 }
    ensures least { least (λ n. nat_le 3 n) 0 10 ≡ Some 3 }
    ensures from_a_number { least (λ n. nat_le 3 n) 5 10 ≡ Some 5 }
    ensures too_few { least (λ n. n == 3) 0 3 ≡ None }
    ensures enough { least (λ n. n == 3) 0 4 ≡ Some 3 }
    ensures from_below { hole_from Least (λ n. nat_le 3 n) 10 ≡ Some 3 }
    ensures from_above { hole_from Greatest (λ n. nat_le 3 n) 10 ≡ Some 9 }
{}

/// The hole of a part: the lowest or the highest address that fits. Three pages have none, and two pages lie in front of
/// page 4 or behind it.
pub fn holes_of_parts()
    ensures low { kernel_hole 0x1001 0x1000 0 0xffff ≡ Some 0x2000 }
    ensures high { hole two_to_six page_four (highest parts.Initrd 0x1001 0xffff) ≡ Some 0x5000 }
    ensures under_the_bound { hole two_to_six page_four (highest parts.Initrd 0x1001 0x6ffe)
        ≡ Some 0x2000 }
    ensures behind_a_short_hole { kernel_hole 0x1001 0x1000 0x2001 0xffff
        ≡ Some 0x5000 }
    ensures unaligned_page { kernel_hole 1 0x800 0x2001 0xffff
        ≡ Some 0x2800 }
    ensures none { hole two_to_six page_four (highest parts.Initrd 0x2001 0xffff) ≡ None }
{}

/// A place has whole pages. A part of 2^46 bytes has none.
pub fn places_of_parts()
    ensures at { site_at (highest parts.Initrd 0x1001 0xffff) (Some 0x5000)
        ≡ Ok (record { at = 0x5000; size = 0x2000 }) }
    ensures nowhere { site_at (highest parts.Headers 1 0xffff) None
        ≡ Err (faults.NoHole parts.Headers) }
    ensures high { place two_to_six page_four (highest parts.Initrd 0x1001 0xffff)
        ≡ Ok (record { at = 0x5000; size = 0x2000 }) }
    ensures none { place two_to_six page_four (highest parts.Module 0x2001 0xffff)
        ≡ Err (faults.NoHole parts.Module) }
    ensures too_large { place two_to_six page_four
        (highest parts.Purgatory (2 ^ 46 - 4095) (2 ^ 46 - 1))
        ≡ Err (faults.NoHole parts.Purgatory) }
    ensures largest { place (λ q. true) (λ q. false)
        (highest parts.Purgatory (2 ^ 46 - 4096) (2 ^ 46 - 1))
        ≡ Ok (record { at = 4096; size = 0x3fff_ffff_f000 }) }
    ensures left_out { place_some two_to_six page_four None ≡ Ok None }
    ensures some { place_some two_to_six page_four (Some (highest parts.Purgatory 0x1001 0xffff))
        ≡ Ok (Some (record { at = 0x5000; size = 0x2000 })) }
    ensures some_without_a_place { place_some two_to_six page_four
        (Some (highest parts.Purgatory 0x2001 0xffff))
        ≡ Err (faults.NoHole parts.Purgatory) }
{}

/// A segment takes each page that it meets, below the limit; a place takes its pages.
pub fn pages_that_are_taken()
    ensures met { map (λ q. is_met q (record { bytes = []; mem = 0x2800; memsz = 0x1000 }))
        (1 ∷ 2 ∷ 3 ∷ 4 ∷ [])
        ≡ false ∷ true ∷ true ∷ false ∷ [] }
    ensures whole { map (λ q. is_met q (record { bytes = []; mem = 0x2000; memsz = 0x1000 }))
        (1 ∷ 2 ∷ 3 ∷ [])
        ≡ false ∷ true ∷ false ∷ [] }
    ensures without_memory { is_met 2 (record { bytes = codes "a"; mem = 0x2000; memsz = 0 })
        ≡ false }
    ensures limit { map
        (λ q. is_met q (record { bytes = []; mem = 0x3fff_ffff_f000; memsz = 0x2000 }))
        (0x3_ffff_ffff ∷ 0x4_0000_0000 ∷ [])
        ≡ true ∷ false ∷ [] }
    ensures taken_by { map
        (taken_by
        (record { bytes = []; mem = 0x2000; memsz = 0x1000 }
        ∷ record { bytes = []; mem = 0x4800; memsz = 0x1000 } ∷ []))
        (2 ∷ 3 ∷ 4 ∷ 5 ∷ 6 ∷ [])
        ≡ true ∷ false ∷ true ∷ true ∷ false ∷ [] }
    ensures pages { pages_at (record { at = 0x5000; size = 0x2000 })
        ≡ record { first = 5; count = 2 } }
    ensures taking { map (taking page_four (record { at = 0x6000; size = 0x2000 }))
        (3 ∷ 4 ∷ 5 ∷ 6 ∷ 7 ∷ 8 ∷ [])
        ≡ false ∷ true ∷ false ∷ true ∷ true ∷ false ∷ [] }
{}
