//! ELF executables: what their headers say, which bytes stand where, and the first refusals.

ghost use Rattle.std.specs.Prelude.{◌≡◌, ◌++◌, ◌∷◌, [], true, Ok, Err, codes, map, take};
ghost use Rattle.elf_image.specs.Image.{byte_at, bytes_of, is_met, runs};
ghost use Rattle.elf_image.specs.Loads.{exec_reading};
ghost use Rattle.elf_image.specs.declared.fault.ElfFault.TheVariants as faults;
ghost use Rattle.elf_image.specs.declared.fault.ElfPart.TheVariants as parts;
ghost use Rattle.worked_examples.specs.Executables.{executable_at, file_header_of, load_row, two_loads};

/// An executable with two loads, of which the second takes more memory than it has bytes.
pub fn executable_with_two_loads()
    ensures read { exec_reading (executable_at 0x10_0900)
        ≡ Ok (record { wide = true; entry = 0x10_0900; loads = two_loads }) }
    ensures pages { runs (is_met two_loads) 0xfe 6 ≡ record { first = 0x100; count = 2 } ∷ [] }
    ensures bytes { map (byte_at (executable_at 0x10_0900) two_loads)
        (0x10_0000 ∷ 0x10_0002 ∷ 0x10_0003 ∷ 0x10_0900 ∷ 0x10_0901 ∷ 0x10_0902 ∷ [])
        ≡ codes "ac" ++ (0 ∷ codes "de" ++ 0 ∷ []) }
    ensures up_to_the_last { bytes_of (executable_at 0x10_0900) two_loads 0x10_08fe 16
        ≡ 0 ∷ 0 ∷ codes "de" }
{}

/// The first refusal of an executable: cut in the header, the table or a load, for another machine, of another type,
/// with loads that overlap or that have too little memory.
pub fn spoiled_executables()
    ensures no_elf { exec_reading (codes "ELF") ≡ Err faults.NotElf }
    ensures short_header { exec_reading (take 63 (executable_at 0x10_0900))
        ≡ Err (faults.Truncated parts.Header) }
    ensures short_table { exec_reading (take 175 (executable_at 0x10_0900))
        ≡ Err (faults.Truncated parts.ProgramTable) }
    ensures short_load { exec_reading (take 180 (executable_at 0x10_0900))
        ≡ Err (faults.Truncated (parts.Load 1)) }
    ensures overlap { exec_reading (executable_at 0x10_0002) ≡ Err (faults.LoadsOverlap 1 0) }
    ensures one_byte_over { exec_reading (executable_at 0xf_f001)
        ≡ Err (faults.LoadsOverlap 1 0) }
    ensures machine { exec_reading (file_header_of 2 40) ≡ Err faults.Machine }
    ensures object { exec_reading (file_header_of 1 62) ≡ Err faults.Kind }
    ensures too_little_memory { exec_reading
        (file_header_of 2 62
        ++ (load_row 176 0x10_0000 3 2 ++ (load_row 179 0x10_0900 2 0x1000 ++ codes "abcde")))
        ≡ Err (faults.BadLoad 0) }
{}
