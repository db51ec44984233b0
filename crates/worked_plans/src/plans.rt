//! Whole plans: the segments, the start, and what a purgatory's table and digest are.

ghost use Rattle.std.specs.Prelude.{◌≡◌, ◌++◌, ◌∷◌, [], true, Some, None, Ok, codes};
ghost use Rattle.boot_params.specs.Params.{params_text};
ghost use Rattle.crash_headers.specs.Headers.{headers};
ghost use Rattle.memory_map.specs.Maps.{core_ranges};
ghost use Rattle.multiboot_image.specs.Info.{info};
ghost use Rattle.purgatory_link.specs.Regions.{digest, region_table};
ghost use Rattle.kx_pages.specs.declared.image.ImageType.TheVariants as types;
ghost use Rattle.kexec_plan.specs.Finish.{HasTableApart};
ghost use Rattle.kexec_plan.specs.Parts.{start_at};
ghost use Rattle.kexec_plan.specs.Plan.{begin, plan};
ghost use Rattle.kexec_plan.specs.Places.{taken_by};
ghost use Rattle.kexec_plan.specs.Purgatory.{arm};
ghost use Rattle.worked_plans.specs.Executables.{executable, executable_segments};
ghost use Rattle.worked_plans.specs.LinuxKernels.{linux_file, low_kernel, high_kernel};
ghost use Rattle.worked_plans.specs.Machines.{machine, machine_rows, crash_rows, one_note};
ghost use Rattle.worked_plans.specs.Multiboots.{multiboot_file, multiboot_segment, a_module};
ghost use Rattle.worked_plans.specs.Plans.{kernel_and_parameters, unarmed, plan_with};
ghost use Rattle.worked_plans.specs.Purgatories.{purgatory_file, linkage};
ghost use Rattle.worked_plans.specs.Requests.{asked};

/// Kernels that say themselves where they lie: a raw kernel, which needs no map, and an ELF executable.
pub fn kernels_with_a_place()
    ensures raw { plan (asked (types.Raw 0x2000 0x2004) (codes "abc")) None
        ≡ Ok (record {
          segments = record { bytes = codes "abc"; mem = 0x2000; memsz = 0x1000 } ∷ [];
          start = start_at 0x2004;
          regions = 0;
          digest = 0;
        }) }
    ensures raw_in_ram { plan (asked (types.Raw 0x2000 0x2004) (codes "abc")) (Some machine)
        ≡ Ok (record {
          segments = record { bytes = codes "abc"; mem = 0x2000; memsz = 0x1000 } ∷ [];
          start = start_at 0x2004;
          regions = 0;
          digest = 0;
        }) }
    ensures elf { plan (asked types.Auto executable) (Some machine)
        ≡ Ok (record {
          segments = executable_segments;
          start = start_at 0x10_2004;
          regions = 0;
          digest = 0;
        }) }
{}

/// A Multiboot kernel at 1 MiB with a command and a module: the module lies as high as it can below 4 GiB, and the
/// information below it.
pub fn multiboot_kernel_with_a_module()
    ensures { plan
        (record (asked types.Auto multiboot_file) {
          command = Some (codes "quiet");
          modules = a_module ∷ [];
        }) (Some machine)
        ≡ Ok (record {
          segments = multiboot_segment
              ∷ record { bytes = codes "files"; mem = 0x7f_f000; memsz = 0x1000 }
              ∷ record {
                bytes = info 0x7f_e000 machine_rows (codes "quiet")
                    (record { start = 0x7f_f000; size = 5; text = codes "m1" } ∷ []);
                mem = 0x7f_e000;
                memsz = 0x1000;
              } ∷ [];
          start = record { entry = 0x10_0020; rax = 0x2bad_b002; rbx = 0x7f_e000; rsi = 0 };
          regions = 0;
          digest = 0;
        }) }
{}

/// A bzImage with an initrd and a command. Where the kernel may lie above 4 GiB, initrd and parameters lie at the end of
/// RAM; otherwise the initrd ends at initrd_addr_max at most, and the parameters lie below 4 GiB.
pub fn linux_kernel_with_an_initrd()
    ensures high { plan
        (record (asked types.Auto (linux_file 3)) {
          initrd = Some (codes "initrd");
          command = Some (codes "quiet");
        }) (Some machine)
        ≡ Ok (record {
          segments = record { bytes = 0xeb ∷ []; mem = 0x18_4000; memsz = 0x3000 }
              ∷ record { bytes = codes "initrd"; mem = 0x1_000f_f000; memsz = 0x1000 }
              ∷ record {
                bytes = params_text high_kernel machine_rows (codes "quiet") 0x1_000f_d000
                    (Some (0x1_000f_f000, 6));
                mem = 0x1_000f_d000;
                memsz = 0x2000;
              } ∷ [];
          start = record { entry = 0x18_4200; rax = 0; rbx = 0; rsi = 0x1_000f_d000 };
          regions = 0;
          digest = 0;
        }) }
    ensures low { plan
        (record (asked types.Bzimage (linux_file 1)) {
          initrd = Some (codes "initrd");
          command = Some (codes "quiet");
        }) (Some machine)
        ≡ Ok (record {
          segments = record { bytes = 0xeb ∷ []; mem = 0x18_4000; memsz = 0x3000 }
              ∷ record { bytes = codes "initrd"; mem = 0x6f_f000; memsz = 0x1000 }
              ∷ record {
                bytes = params_text low_kernel machine_rows (codes "quiet") 0x7f_e000
                    (Some (0x6f_f000, 6));
                mem = 0x7f_e000;
                memsz = 0x2000;
              } ∷ [];
          start = record { entry = 0x18_4200; rax = 0; rbx = 0; rsi = 0x7f_e000 };
          regions = 0;
          digest = 0;
        }) }
{}

/// A crash kernel lies in the reserved area with all its parts. Its command tells where its headers lie, and has then as
/// many bytes as the kernel takes; its rows are the area and the rows of other kinds.
pub fn crash_kernel()
    ensures { plan
        (record (asked types.Bzimage (linux_file 3)) {
          crash = true;
          command = Some (codes "quiet");
          notes = one_note;
        }) (Some machine)
        ≡ Ok (record {
          segments = record { bytes = 0xeb ∷ []; mem = 0x40_0000; memsz = 0x3000 }
              ∷ record {
                bytes = headers one_note (core_ranges machine);
                mem = 0x4f_f000;
                memsz = 0x1000;
              }
              ∷ record {
                bytes = params_text high_kernel crash_rows (codes "quiet elfcorehdr=5116K")
                    0x4f_d000 None;
                mem = 0x4f_d000;
                memsz = 0x2000;
              } ∷ [];
          start = record { entry = 0x40_0200; rax = 0; rbx = 0; rsi = 0x4f_d000 };
          regions = 0;
          digest = 0;
        }) }
{}

/// A purgatory starts in front of a Linux kernel: it lies below the others, and finds the kernel's start, the table of the
/// other segments, and their digest.
pub fn linux_kernel_behind_a_purgatory()
    ensures { plan
        (record (asked types.Bzimage (linux_file 1)) {
          purgatory = Some (purgatory_file 136);
        }) (Some machine)
        ≡ Ok (record {
          segments = kernel_and_parameters
              ++ record {
                bytes = arm (linkage 0x7f_d000)
                    (record { entry = 0x18_4200; rax = 0; rbx = 0; rsi = 0x7f_e000 })
                    (region_table kernel_and_parameters)
                    (digest (kernel_and_parameters ++ unarmed 0x7f_d000 ∷ []) 2);
                mem = 0x7f_d000;
                memsz = 0x1000;
              } ∷ [];
          start = start_at 0x7f_d1a8;
          regions = 0x7f_d088;
          digest = 0x7f_d188;
        }) }
{}

/// The table of regions has 256 bytes and the digest 32. They are apart where one ends at most where the other begins, and
/// without a purgatory they are not.
pub fn tables_that_are_apart()
    ensures digest_behind { HasTableApart (plan_with 0x7000 0x7100) }
    ensures digest_too_near { HasTableApart (plan_with 0x7000 0x70ff) → ⊥ }
    ensures digest_in_front { HasTableApart (plan_with 0x7000 0x6fe0) }
    ensures digest_into_the_table { HasTableApart (plan_with 0x7000 0x6fe1) → ⊥ }
    ensures no_purgatory { HasTableApart (plan_with 0 0) → ⊥ }
{}

/// Before any part is placed: the pages of the kernel's segments are taken, and the command is known.
pub fn beginning_of_a_plan()
    ensures { begin (multiboot_segment ∷ []) 0x10_0020 (Some (codes "quiet"))
        ≡ record {
          taken = taken_by (multiboot_segment ∷ []);
          list = multiboot_segment ∷ [];
          fault = None;
          command = codes "quiet";
          initrd = None;
          slots = [];
          start = start_at 0x10_0020;
        } }
{}
