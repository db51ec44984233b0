//! Lines of memory maps, and what a map says of single pages.

ghost use Rattle.std.specs.Prelude.{◌≡◌, ◌∷◌, [], Some, None, Ok, Err, codes, map, true, false};
ghost use Rattle.memory_map.specs.Maps.{is_ram, is_taken, is_whole, nothing, reserved_area, with_area, with_row};
ghost use Rattle.memory_map.specs.Text.{line_onto};
ghost use Rattle.memory_map.specs.declared.fault.MapFault.TheVariants as faults;

/// Lines: one without a space before its name, one whose range lies past the limit, one that is cut at it, one byte, and
/// each name that says what a range is; others say nothing.
pub fn lines_of_a_map()
    ensures no_space { line_onto 2 nothing (codes "1000-1fff :System RAM")
        ≡ Err (faults.BadLine 2) }
    ensures past_the_limit { line_onto 1 nothing (codes "400000000000-400000000fff : System RAM")
        ≡ Ok nothing }
    ensures cut { line_onto 1 nothing (codes "3ffffffff000-400000000fff : System RAM")
        ≡ Ok (with_row (record { start = 0x3fff_ffff_f000; size = 0x1000; kind = 1 }) nothing) }
    ensures one_byte { line_onto 1 nothing (codes "  5-5 : Reserved")
        ≡ Ok (with_row (record { start = 5; size = 1; kind = 2 }) nothing) }
    ensures area { line_onto 1 nothing (codes "1000-2fff : Crash kernel")
        ≡ Ok (with_area (record { start = 0x1000; size = 0x2000; kind = 0 }) nothing) }
    ensures other { line_onto 1 nothing (codes "1000-2fff : PCI Bus 0000:00") ≡ Ok nothing }
    ensures small_letters { line_onto 1 nothing (codes "1000-1fff : reserved")
        ≡ Ok (with_row (record { start = 0x1000; size = 0x1000; kind = 2 }) nothing) }
    ensures acpi_tables { line_onto 1 nothing (codes "1000-1fff : ACPI Tables")
        ≡ Ok (with_row (record { start = 0x1000; size = 0x1000; kind = 3 }) nothing) }
    ensures acpi_storage { line_onto 1 nothing (codes "1000-1fff : ACPI Non-volatile Storage")
        ≡ Ok (with_row (record { start = 0x1000; size = 0x1000; kind = 4 }) nothing) }
    ensures other_letters { line_onto 1 nothing (codes "1000-1fff : system RAM") ≡ Ok nothing }
{}

/// RAM from 1800 on, to the end of page 4, with a reserved byte in page 3: page 1 is not whole, page 3 is taken. Of two
/// crash areas the last one counts, by its whole pages.
pub fn pages_of_a_map()
    ensures whole { map (is_whole (record { start = 0x1800; size = 0x3800; kind = 1 } ∷ []))
        (1 ∷ 2 ∷ 4 ∷ 5 ∷ []) ≡ false ∷ true ∷ true ∷ false ∷ [] }
    ensures ram { map
        (is_ram
        (record {
          rows =
              record { start = 0x1800; size = 0x3800; kind = 1 }
              ∷ record { start = 0x3fff; size = 1; kind = 2 } ∷ [];
          areas = [];
        })) (1 ∷ 2 ∷ 3 ∷ 4 ∷ 5 ∷ []) ≡ false ∷ true ∷ false ∷ true ∷ false ∷ [] }
    ensures taken_by_an_area { map
        (is_taken
        (record { rows = []; areas = record { start = 0x2fff; size = 2; kind = 0 } ∷ [] }))
        (1 ∷ 2 ∷ 3 ∷ 4 ∷ []) ≡ false ∷ true ∷ true ∷ false ∷ [] }
    ensures last_area { reserved_area
        (record {
          rows = [];
          areas =
              record { start = 0x1000; size = 0x2000; kind = 0 }
              ∷ record { start = 0x5800; size = 0x2800; kind = 0 } ∷ [];
        }) ≡ Some (record { first = 6; count = 2 }) }
    ensures no_whole_page { reserved_area
        (record { rows = []; areas = record { start = 0x5800; size = 0x1000; kind = 0 } ∷ [] })
        ≡ None }
    ensures no_area { reserved_area nothing ≡ None }
{}
