//! Core files: where their parts stand, and one byte for byte.

ghost use Rattle.std.specs.Prelude.{◌≡◌, ◌∷◌, [], Ok, Err, map, take};
ghost use Rattle.vmcore_file.specs.File.{core_reading};
ghost use Rattle.vmcore_file.specs.Layout.{place_for, notes_place, loads_in_file};
ghost use Rattle.vmcore_file.specs.Notes.{kept_size};
ghost use Rattle.vmcore_file.specs.declared.fault.CoreFault.TheVariants as faults;
ghost use Rattle.worked_examples.specs.Cores.{core_file, core_note, dumped, load_of};

/// A load stands at the next place that is its address but for whole pages. The notes begin with a page, behind the rows:
/// of 71 loads these end with the first page.
pub fn places_in_a_core_file()
    ensures next_page { place_for 0x1018 0x10_0000 ≡ 0x2000 }
    ensures at_once { place_for 0x3000 0x10_2000 ≡ 0x3000 }
    ensures inside_a_page { place_for 0x1034 0x10_2002 ≡ 0x2002 }
    ensures in_this_page { place_for 0x1034 0xff8 ≡ 0x1ff8 }
    ensures few { notes_place 2 ≡ 0x1000 }
    ensures first_page { notes_place 71 ≡ 0x1000 }
    ensures second_page { notes_place 72 ≡ 0x2000 }
    ensures loads { map (λ r. r.offset)
        (loads_in_file (record { start = 0x10_0000; size = 24 } ∷ [])
        (load_of 0x10_0000 0x1000 ∷ load_of 0x10_2000 0x1000 ∷ [])) ≡ 0x2000 ∷ 0x3000 ∷ [] }
{}

/// The core file of a memory with headers for one note and two ranges. Of the 48 bytes for notes the 24 of one are kept.
pub fn core_file_of_a_memory()
    ensures kept { kept_size (take 48 (dumped 0x100)) ≡ 24 }
    ensures cut_note { kept_size (take 23 core_note) ≡ 0 }
    ensures made { core_reading dumped 0x10_1000
        ≡ Ok (record { bytes = core_file; loads = 2; notes = 24 }) }
    ensures no_headers { core_reading dumped 0x10_0000 ≡ Err faults.NotHeaders }
    ensures past_the_limit { core_reading dumped 0x3fff_ffff_ffc8
        ≡ Err (faults.PastLimit 0x3fff_ffff_ffc8) }
{}
