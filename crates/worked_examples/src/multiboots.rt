//! Multiboot kernels: their header, what they are loaded as, and the information that they are handed.

ghost use Rattle.std.specs.Prelude.{◌≡◌, ◌++◌, ◌∷◌, [], Some, None, Ok, Err, codes, map, replicate};
ghost use Rattle.byteorder.specs.Endian.{little_bytes};
ghost use Rattle.multiboot_image.specs.Header.{find_header, unknown_bit};
ghost use Rattle.multiboot_image.specs.Info.{info, info_size, places_of};
ghost use Rattle.multiboot_image.specs.MapRows.{mem_lower, mem_upper};
ghost use Rattle.multiboot_image.specs.Modules.{module_table, texts};
ghost use Rattle.multiboot_image.specs.Parts.{parts};
ghost use Rattle.multiboot_image.specs.declared.fault.MbFault.TheVariants as faults;
ghost use Rattle.elf_image.specs.declared.fault.ElfFault.TheVariants as elf_faults;
ghost use Rattle.worked_examples.specs.Multiboots.{header_read, information, kernel_with, ram};

/// A header with addresses: its file is loaded from the header on. A header without addresses needs an ELF file.
pub fn kernel_with_addresses()
    ensures header { find_header (kernel_with 0x1_0000 0xe451_4ffe 0) ≡ Ok (header_read 0) }
    ensures whole_file { parts (header_read 0) (kernel_with 0x1_0000 0xe451_4ffe 0)
        ≡ Ok (record {
          list = record {
            bytes = kernel_with 0x1_0000 0xe451_4ffe 0;
            mem = 0x10_0000;
            memsz = 0x1000;
          } ∷ [];
          entry = 0x10_0020;
        }) }
    ensures more_memory { parts (header_read 0x10_1001) (kernel_with 0x1_0000 0xe451_4ffe 0x10_1001)
        ≡ Ok (record {
          list = record {
            bytes = kernel_with 0x1_0000 0xe451_4ffe 0x10_1001;
            mem = 0x10_0000;
            memsz = 0x2000;
          } ∷ [];
          entry = 0x10_0020;
        }) }
    ensures too_little_memory { parts (header_read 0x10_003f)
        (kernel_with 0x1_0000 0xe451_4ffe 0x10_003f)
        ≡ Err faults.BadKludge }
{}

/// The first refusals of a header: another sum, a flag that asks for more, addresses that are cut off, and a place that is
/// no multiple of 4.
pub fn spoiled_headers()
    ensures sum { find_header (kernel_with 0x1_0000 0xe451_4ffd 0) ≡ Err faults.NoHeader }
    ensures flag { find_header (kernel_with 0x1_0004 0xe451_4ffa 0) ≡ Err (faults.UnknownFlag 2) }
    ensures cut { find_header
        (little_bytes 4 0x1bad_b002
        ++ (little_bytes 4 0x1_0000 ++ (little_bytes 4 0xe451_4ffe ++ replicate 19 0)))
        ≡ Err faults.BadKludge }
    ensures aligned { find_header (replicate 2 0 ++ kernel_with 0x1_0000 0xe451_4ffe 0)
        ≡ Err faults.NoHeader }
    ensures further { find_header
        (replicate 12 0
        ++ (little_bytes 4 0x1bad_b002 ++ (replicate 4 0 ++ little_bytes 4 0xe452_4ffe)))
        ≡ Ok (record { at = 12; flags = 0; kludge = None }) }
{}

/// The information of a kernel without command and modules, and places with both.
pub fn information_of_a_kernel()
    ensures bytes { info 0x7f_f000 ram [] [] ≡ information }
    ensures size { info_size 1 0 [] ≡ 119 }
    ensures lower { mem_lower ram ≡ 640 }
    ensures upper { mem_upper ram ≡ 7168 }
    ensures places { places_of 0x5000 0 1 1
        ≡ record {
          map = 0x5058;
          modules = 0x5058;
          command = 0x5068;
          name = 0x506a;
          texts = 0x5070;
        } }
    ensures modules { module_table 0x5070
        (record { start = 0x3000; size = 5; text = codes "a" }
        ∷ record { start = 0x4000; size = 0x1000; text = codes "b" } ∷ [])
        ≡ little_bytes 4 0x3000
        ++ (little_bytes 4 0x3005 ++ (little_bytes 4 0x5070 ++ (replicate 4 0
        ++ (little_bytes 4 0x4000
        ++ (little_bytes 4 0x5000 ++ (little_bytes 4 0x5072 ++ replicate 4 0)))))) }
    ensures names { texts
        (record { start = 0x3000; size = 5; text = codes "a" }
        ∷ record { start = 0x4000; size = 0x1000; text = codes "b" } ∷ [])
        ≡ codes "a" ++ (0 ∷ codes "b" ++ 0 ∷ []) }
{}

/// The flags of a header: bits 0 and 1, and those from 16 on, ask for nothing that must be served.
pub fn flags_of_a_header()
    ensures lowest { map unknown_bit (4 ∷ 0x8000 ∷ 0xc000 ∷ 0x1_8000 ∷ [])
        ≡ Some 2 ∷ Some 15 ∷ Some 14 ∷ Some 15 ∷ [] }
    ensures none { map unknown_bit (0 ∷ 3 ∷ 0x1_0003 ∷ []) ≡ None ∷ None ∷ None ∷ [] }
{}
