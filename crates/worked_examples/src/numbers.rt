//! Numbers in the formats of kernels: halves of 64 bits, limits of a setup header, bits and lengths.

ghost use Rattle.std.specs.Prelude.{◌≡◌, ◌∷◌, [], Some, None, map, take, true, false};
ghost use Rattle.kx_fields.specs.Fields.{with_field};
ghost use Rattle.kx_fields.specs.Formats.{read};
ghost use Rattle.bzimage.specs.Kernel.{header_fault, is_alignment, is_header_end, kernel_start};
ghost use Rattle.bzimage.specs.SetupHeader.{setup_header};
ghost use Rattle.boot_params.specs.Numbers.{address, high, low, numbers_of, size};
ghost use Rattle.boot_params.specs.SetupData.{nul_end, record_place};
ghost use Rattle.crash_headers.specs.Headers.{length_for};
ghost use Rattle.worked_examples.specs.BzImages.{bzimage_file};

/// The numbers of the boot parameters at 1_2345_6000 for 130 rows, a command of one byte, and an initrd of 3_0001_0001 bytes
/// at 2_8765_4000, and those without an initrd and with few rows.
pub fn numbers_of_boot_parameters()
    ensures low { map low (5 ∷ 0x1_8000_0001 ∷ []) ≡ 5 ∷ 0x8000_0001 ∷ [] }
    ensures high { map high (5 ∷ 0x1_8000_0001 ∷ []) ≡ 0 ∷ 1 ∷ [] }
    ensures address { map address (None ∷ Some (5, 7) ∷ []) ≡ 0 ∷ 5 ∷ [] }
    ensures size { map size (None ∷ Some (5, 7) ∷ []) ≡ 0 ∷ 7 ∷ [] }
    ensures high_up { numbers_of 130 1 0x1_2345_6000 (Some (0x2_8765_4000, 0x3_0001_0001))
        ≡ record {
          ext_ramdisk_image = 2;
          ext_ramdisk_size = 3;
          ext_cmd_line_ptr = 1;
          e820_entries = 128;
          type_of_loader = 0xd0;
          ramdisk_image = 0x8765_4000;
          ramdisk_size = 0x1_0001;
          cmd_line_ptr = 0x2345_7000;
          setup_data = 0x1_2345_7008;
        } }
    ensures low_down { numbers_of 2 1 0x9_0000 None
        ≡ record {
          ext_ramdisk_image = 0;
          ext_ramdisk_size = 0;
          ext_cmd_line_ptr = 0;
          e820_entries = 2;
          type_of_loader = 0xd0;
          ramdisk_image = 0;
          ramdisk_size = 0;
          cmd_line_ptr = 0x9_1000;
          setup_data = 0;
        } }
    ensures places { map record_place (6 ∷ 7 ∷ 8 ∷ []) ≡ 4104 ∷ 4104 ∷ 4112 ∷ [] }
    ensures ends { map nul_end (0 ∷ 7 ∷ []) ≡ 4097 ∷ 4104 ∷ [] }
{}

/// A setup header at its limits: no setup sectors stand for four, and version 2.12 is the first that passes.
pub fn limits_of_a_setup_header()
    ensures no_sectors { kernel_start
        (read setup_header (take 0x264 (with_field 0x1f1 1 0 bzimage_file))) ≡ 2560 }
    ensures one_sector { kernel_start (read setup_header (take 0x264 bzimage_file)) ≡ 1024 }
    ensures oldest { header_fault 1025
        (read setup_header (take 0x264 (with_field 0x206 2 0x20c bzimage_file))) ≡ None }
    ensures ends { map is_header_end (0x263 ∷ 0x264 ∷ 0x290 ∷ 0x291 ∷ [])
        ≡ false ∷ true ∷ true ∷ false ∷ [] }
    ensures alignments { map is_alignment (0 ∷ 0x800 ∷ 0x1000 ∷ 0x3000 ∷ [])
        ≡ false ∷ false ∷ true ∷ false ∷ [] }
{}

/// The length of crash headers: 64 bytes, and 56 for each note and each range.
pub fn length_of_crash_headers()
    ensures two_notes { length_for 2 (record { start = 0x1000; size = 0x1000; kind = 1 } ∷ [])
        ≡ 232 }
    ensures nothing { length_for 0 [] ≡ 64 }
{}
