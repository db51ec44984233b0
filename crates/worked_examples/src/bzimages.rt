//! A bzImage and its boot parameters.

ghost use Rattle.std.specs.Prelude.{◌≡◌, ◌++◌, ◌∷◌, [], Some, None, Ok, Err, codes, take, drop, length, replicate};
ghost use Rattle.byteorder.specs.Endian.{little_bytes};
ghost use Rattle.kx_fields.specs.Fields.{bytes_at, field, with_field};
ghost use Rattle.bzimage.specs.Kernel.{kernel_reading};
ghost use Rattle.bzimage.specs.declared.fault.BzFault.TheVariants as faults;
ghost use Rattle.boot_params.specs.Numbers.{setup_data_of};
ghost use Rattle.boot_params.specs.Params.{params, params_fault, params_length};
ghost use Rattle.boot_params.specs.SetupData.{head_of, head_text, record_place};
ghost use Rattle.boot_params.specs.declared.fault.ParamsFault.TheVariants as params_faults;
ghost use Rattle.worked_examples.specs.BzImages.{bzimage_file, crash_parameters, kernel_read};

/// What the setup header of a bzImage says, and the first refusals in their order.
pub fn setup_header_of_a_bzimage()
    ensures read { kernel_reading bzimage_file ≡ Ok kernel_read }
    ensures no_kernel { kernel_reading (with_field 0x1fe 2 0 bzimage_file) ≡ Err faults.NotKernel }
    ensures short { kernel_reading (take 0x263 bzimage_file) ≡ Err faults.NotKernel }
    ensures version { kernel_reading (with_field 0x206 2 0x20b (with_field 0x236 2 2 bzimage_file))
        ≡ Err (faults.OldVersion 0x20b) }
    ensures entry { kernel_reading (with_field 0x236 2 2 (with_field 0x234 1 0 bzimage_file))
        ≡ Err faults.No64Entry }
    ensures relocatable { kernel_reading (with_field 0x234 1 0 (with_field 0x211 1 0 bzimage_file))
        ≡ Err faults.NotRelocatable }
    ensures high { kernel_reading (with_field 0x211 1 0 (with_field 0x201 1 0x8f bzimage_file))
        ≡ Err faults.NotHigh }
    ensures end { kernel_reading (with_field 0x201 1 0x8f bzimage_file)
        ≡ Err (faults.HeaderLength 0x291) }
    ensures alignment { kernel_reading (with_field 0x230 4 0x3000 bzimage_file)
        ≡ Err (faults.BadAlignment 0x3000) }
    ensures cut { kernel_reading (take 1024 bzimage_file) ≡ Err (faults.Truncated 1024) }
{}

/// The parameters of a crash kernel: the zero page with one row, the command and a NUL behind it.
pub fn boot_parameters()
    ensures length { length crash_parameters ≡ 4102 }
    ensures entries { field 0x1e8 1 crash_parameters ≡ 1 }
    ensures loader { field 0x210 1 crash_parameters ≡ 0xd0 }
    ensures command_place { field 0x228 4 crash_parameters ≡ 0x5ff_e000 }
    ensures initrd { field 0x218 8 crash_parameters ≡ 0 }
    ensures row { bytes_at 0x2d0 20 crash_parameters
        ≡ little_bytes 8 0x400_0000 ++ (little_bytes 8 0x200_0000 ++ little_bytes 4 1) }
    ensures behind_the_row { field 0x2e4 8 crash_parameters ≡ 0 }
    ensures command { drop 4096 crash_parameters ≡ codes "quiet" ++ 0 ∷ [] }
    ensures version { field 0x206 2 crash_parameters ≡ 0x20f }
    ensures made { params kernel_read
        (record { start = 0x400_0000; size = 0x200_0000; kind = 1 } ∷ []) (codes "quiet") 0x5ff_d000
        None ≡ Ok crash_parameters }
{}

/// A map of 130 rows: two of them have no room in the zero page, and stand behind the command in a record of their own,
/// at a multiple of 8.
pub fn boot_parameters_with_many_rows()
    ensures length { params_length 130 1 ≡ 4160 }
    ensures place { record_place 1 ≡ 4104 }
    ensures head { head_text (head_of 2)
        ≡ little_bytes 8 0 ++ (little_bytes 4 1 ++ little_bytes 4 40) }
    ensures pointer { setup_data_of 130 1 0x5000 ≡ 0x6008 }
    ensures no_pointer { setup_data_of 128 1 0x5000 ≡ 0 }
    ensures too_many { params_fault kernel_read
        (replicate 1153 (record { start = 0; size = 0x1000; kind = 1 })) []
        ≡ Some (params_faults.TooManyRanges 1153) }
    ensures long_command { params_fault kernel_read [] (replicate 256 0x61)
        ≡ Some (params_faults.CommandTooLong 256 255) }
    ensures nul { params_fault kernel_read [] (0x61 ∷ 0 ∷ [])
        ≡ Some (params_faults.NulInCommand 1) }
{}
