//! What a kernel's file gives a plan: segments with a place, and parts that need one.

ghost use Rattle.std.specs.Prelude.{◌≡◌, ◌∷◌, [], false, true, Some, None, Ok, Err, codes, replicate};
ghost use Rattle.bzimage.specs.declared.fault.BzFault.TheVariants as bz;
ghost use Rattle.elf_image.specs.declared.fault.ElfFault.TheVariants as elf;
ghost use Rattle.kx_pages.specs.declared.image.ImageType.TheVariants as types;
ghost use Rattle.multiboot_image.specs.declared.fault.MbFault.TheVariants as multiboot;
ghost use Rattle.kexec_plan.specs.Ground.{Unknown, Machine, Reserved};
ghost use Rattle.kexec_plan.specs.Kernels.{raw_kernel, elf_kernel, initrd_part, headers_part, linux_parts, linux_kernel, multiboot_kernel};
ghost use Rattle.kexec_plan.specs.Laying.{Image, Initrd, Headers, Parameters, Module, Information};
ghost use Rattle.kexec_plan.specs.Table.{highest, kernel_rule};
ghost use Rattle.plan_faults.specs.declared.fault.Part.TheVariants as parts;
ghost use Rattle.plan_faults.specs.declared.fault.PlanFault.TheVariants as faults;
ghost use Rattle.worked_plans.specs.Executables.{executable, executable_segments, file_header, small_executable};
ghost use Rattle.worked_plans.specs.Forms.{kernel_in};
ghost use Rattle.worked_plans.specs.LinuxKernels.{linux_file, low_kernel, high_kernel};
ghost use Rattle.worked_plans.specs.Machines.{machine, machine_rows, area, crash_rows, one_note};
ghost use Rattle.worked_plans.specs.Multiboots.{head, multiboot_file, multiboot_segment, a_module};

/// A raw kernel has whole pages of memory from its address on; it may have none.
pub fn raw_kernels()
    ensures kernel { raw_kernel 0x5000 0x5004 (codes "abc")
        ≡ record {
          list = record { bytes = codes "abc"; mem = 0x5000; memsz = 0x1000 } ∷ [];
          entry = 0x5004;
          parts = [];
          above4g = false;
        } }
    ensures empty { (raw_kernel 0x5000 0x5004 []).list
        ≡ record { bytes = []; mem = 0x5000; memsz = 0 } ∷ [] }
    ensures of_the_form { kernel_in Unknown (types.Raw 0x5000 0x5004) (codes "abc") None [] []
        ≡ Ok (raw_kernel 0x5000 0x5004 (codes "abc")) }
{}

/// An ELF kernel is an ELF64 executable, whose loads are its segments.
pub fn elf_kernels()
    ensures kernel { elf_kernel executable
        ≡ Ok (record {
          list = executable_segments;
          entry = 0x10_2004;
          parts = [];
          above4g = false;
        }) }
    ensures of_the_form { kernel_in Unknown types.Elf (codes "ELF") None [] []
        ≡ Err (faults.Elf elf.NotElf) }
    ensures elf32 { elf_kernel small_executable ≡ Err (faults.Elf elf.Class) }
    ensures object { elf_kernel (file_header 1 62 0) ≡ Err (faults.Elf elf.Kind) }
    ensures machine { elf_kernel (file_header 2 3 0) ≡ Err (faults.Elf elf.Machine) }
{}

/// The parts of a bzImage in their order: the protected-mode part, the initrd, the headers of a crash kernel, and the
/// boot parameters.
pub fn parts_of_a_linux_kernel()
    ensures no_initrd { initrd_part low_kernel None ≡ [] }
    ensures initrd { initrd_part low_kernel (Some (codes "initrd"))
        ≡ Initrd (highest parts.Initrd 6 0x6f_ffff) (codes "initrd") ∷ [] }
    ensures unknown { headers_part Unknown low_kernel one_note ≡ [] }
    ensures machine { headers_part (Machine machine) low_kernel one_note ≡ [] }
    ensures headers { headers_part (Reserved machine area) low_kernel one_note
        ≡ Headers (highest parts.Headers 344 0xffff_ffff) machine one_note ∷ [] }
    ensures normal { linux_parts (Machine machine) low_kernel (replicate 1024 0x55) None one_note
        ≡ Image (kernel_rule low_kernel 1024) [] ∷ Parameters low_kernel machine_rows ∷ [] }
    ensures crash { linux_parts (Reserved machine area) high_kernel (linux_file 3)
        (Some (codes "initrd")) one_note
        ≡ Image (kernel_rule high_kernel 1025) (0xeb ∷ [])
        ∷ Initrd (highest parts.Initrd 6 0x3fff_ffff_ffff) (codes "initrd")
        ∷ Headers (highest parts.Headers 344 0x3fff_ffff_ffff) machine one_note
        ∷ Parameters high_kernel crash_rows ∷ [] }
{}

/// The kernel of a bzImage's file has no segment with a place, and no entry yet.
pub fn linux_kernels()
    ensures high { linux_kernel (Machine machine) (linux_file 3) None []
        ≡ Ok (record {
          list = [];
          entry = 0;
          parts = Image (kernel_rule high_kernel 1025) (0xeb ∷ [])
              ∷ Parameters high_kernel machine_rows ∷ [];
          above4g = true;
        }) }
    ensures low { linux_kernel (Machine machine) (linux_file 1) None []
        ≡ Ok (record {
          list = [];
          entry = 0;
          parts = Image (kernel_rule low_kernel 1025) (0xeb ∷ [])
              ∷ Parameters low_kernel machine_rows ∷ [];
          above4g = false;
        }) }
    ensures no_entry { kernel_in Unknown types.Bzimage (linux_file 2) None [] []
        ≡ Err (faults.Bzimage bz.No64Entry) }
    ensures no_kernel { linux_kernel Unknown [] None [] ≡ Err (faults.Bzimage bz.NotKernel) }
{}

/// A Multiboot kernel has the segment of its addresses, and behind it its modules and its information.
pub fn multiboot_kernels()
    ensures kernel { kernel_in (Machine machine) types.Multiboot multiboot_file None
        (a_module ∷ record { bytes = []; text = [] } ∷ []) []
        ≡ Ok (record {
          list = multiboot_segment ∷ [];
          entry = 0x10_0020;
          parts = Module a_module ∷ Module (record { bytes = []; text = [] })
              ∷ Information machine_rows ∷ [];
          above4g = false;
        }) }
    ensures no_header { multiboot_kernel Unknown (codes "abc") []
        ≡ Err (faults.Multiboot multiboot.NoHeader) }
    ensures no_executable { multiboot_kernel Unknown (head 0 0xe452_4ffe) []
        ≡ Err (faults.Multiboot (multiboot.Elf elf.NotElf)) }
{}
