//! Notes of a crash: the lines that list them, and the first refusals.

ghost use Rattle.std.specs.Prelude.{◌≡◌, ◌∷◌, [], Ok, Err, codes};
ghost use Rattle.crash_headers.specs.Notes.{notes_reading};
ghost use Rattle.crash_headers.specs.declared.fault.NoteFault.TheVariants as faults;

/// Each line is the address of a note and its number of bytes.
pub fn notes_of_a_text()
    ensures one { notes_reading (codes "200000 400\n")
        ≡ Ok (record { start = 0x200000; size = 0x400 } ∷ []) }
    ensures two { notes_reading (codes "200000 400\n1000 20")
        ≡ Ok (record { start = 0x200000; size = 0x400 } ∷ record { start = 0x1000; size = 0x20 }
        ∷ []) }
    ensures none { notes_reading [] ≡ Ok [] }
{}

/// The first line that is no note: without a size, without bytes, past the last address.
pub fn spoiled_notes()
    ensures no_size { notes_reading (codes "200000 400\n1000\n") ≡ Err (faults.BadLine 2) }
    ensures no_bytes { notes_reading (codes "200000 0\n") ≡ Err (faults.BadLine 1) }
    ensures past_the_limit { notes_reading (codes "3ffffffff000 1001\n")
        ≡ Err (faults.BadLine 1) }
    ensures up_to_the_limit { notes_reading (codes "3ffffffff000 1000\n")
        ≡ Ok (record { start = 0x3fff_ffff_f000; size = 0x1000 } ∷ []) }
{}
