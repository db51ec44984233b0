//! The headers that a crash kernel finds memory by, byte for byte.

ghost use Rattle.std.specs.Prelude.{◌≡◌, ◌++◌, ◌∷◌, [], Ok, Err, length, replicate};
ghost use Rattle.crash_headers.specs.Headers.{headers, headers_or_fault};
ghost use Rattle.crash_headers.specs.declared.fault.CrashFault.TheVariants as faults;
ghost use Rattle.worked_examples.specs.Cores.{core_file_header, load_header, note_header, one_note, two_ranges};

/// A PT_NOTE for each note and a PT_LOAD for each range, behind the file header of a core file.
pub fn headers_of_a_crash_kernel()
    ensures bytes { headers one_note two_ranges
        ≡ core_file_header 3
        ++ (note_header 0x20_0000 0x400
        ++ (load_header 0x10_0000 0x10_0000 0x3f0_0000
        ++ load_header 0x600_0000 0x600_0000 0xa00_0000)) }
    ensures length { length (headers one_note two_ranges) ≡ 232 }
    ensures made { headers_or_fault one_note two_ranges ≡ Ok (headers one_note two_ranges) }
    ensures note_in_the_area { headers_or_fault
        (record { start = 0x400_0000; size = 0x400 } ∷ []) two_ranges
        ≡ Err (faults.NotesOutside 0) }
    ensures note_past_a_range { headers_or_fault
        (record { start = 0x10_0000; size = 4 } ∷ record { start = 0x3ff_fc01; size = 0x400 } ∷ [])
        two_ranges
        ≡ Err (faults.NotesOutside 1) }
    ensures too_many { headers_or_fault
        (replicate 1023 (record { start = 0x20_0000; size = 0x400 })) two_ranges
        ≡ Err (faults.TooManyRanges 1025) }
{}
