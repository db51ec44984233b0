//! The parts of a plan, placed one after another.

ghost use Rattle.std.specs.Prelude.{◌≡◌, ◌∷◌, [], Some, Ok, Err, codes, map, replicate};
ghost use Rattle.boot_params.specs.Params.{params_text};
ghost use Rattle.boot_params.specs.declared.fault.ParamsFault.TheVariants as params;
ghost use Rattle.crash_headers.specs.Headers.{headers};
ghost use Rattle.crash_headers.specs.declared.fault.CrashFault.TheVariants as crash;
ghost use Rattle.memory_map.specs.Maps.{core_ranges};
ghost use Rattle.multiboot_image.specs.Info.{info};
ghost use Rattle.kexec_plan.specs.Laying.{Image, Initrd, Headers, Parameters, Module, Information, rule_of};
ghost use Rattle.kexec_plan.specs.Table.{highest};
ghost use Rattle.plan_faults.specs.declared.fault.Part.TheVariants as parts;
ghost use Rattle.plan_faults.specs.declared.fault.PlanFault.TheVariants as faults;
ghost use Rattle.worked_plans.specs.Laid.{laid, tell_here, bytes_here, push_here};
ghost use Rattle.worked_plans.specs.LinuxKernels.{low_kernel};
ghost use Rattle.worked_plans.specs.Machines.{machine, machine_rows, one_note};
ghost use Rattle.worked_plans.specs.Multiboots.{a_module};

/// The rule of a part: parameters and information are as long as the command and the modules before them make them.
pub fn rules_by_what_is_laid()
    ensures given { map (λ p. rule_of p laid)
        (Image (highest parts.Kernel 1 0x7fff) [] ∷ Initrd (highest parts.Initrd 2 0x6fff) []
        ∷ Headers (highest parts.Headers 3 0x5fff) machine [] ∷ [])
        ≡ highest parts.Kernel 1 0x7fff ∷ highest parts.Initrd 2 0x6fff
        ∷ highest parts.Headers 3 0x5fff ∷ [] }
    ensures parameters { rule_of (Parameters low_kernel machine_rows) laid
        ≡ highest parts.Parameters 4102 0xffff_ffff }
    ensures module { rule_of (Module a_module) laid ≡ highest parts.Module 5 0xffff_efff }
    ensures information { rule_of (Information machine_rows) laid
        ≡ highest parts.Information 215 0xffff_ffff }
{}

/// What the kernel is told of each part: the entry 0x200 bytes behind the start of a bzImage, address and length of an
/// initrd, the address of the headers in the command, that of the parameters in rsi, a module behind the others, and that of
/// the information in ebx, with Multiboot's magic number in eax.
pub fn what_is_told()
    ensures image { tell_here (Image (highest parts.Kernel 1 0x7fff) (codes "abc"))
        ≡ record laid { start = record { entry = 0x5200; rax = 0x11; rbx = 0x12; rsi = 0x13 } } }
    ensures initrd { tell_here (Initrd (highest parts.Initrd 1 0x7fff) (codes "initrd"))
        ≡ record laid { initrd = Some (0x5000, 6) } }
    ensures headers { tell_here (Headers (highest parts.Headers 1 0x7fff) machine one_note)
        ≡ record laid { command = codes "quiet elfcorehdr=20K" } }
    ensures parameters { tell_here (Parameters low_kernel machine_rows)
        ≡ record laid { start = record { entry = 0x10; rax = 0x11; rbx = 0x12; rsi = 0x5000 } } }
    ensures module { tell_here (Module a_module)
        ≡ record laid {
          slots = record { start = 0x7000; size = 5; text = codes "m0" }
              ∷ record { start = 0x5000; size = 5; text = codes "m1" } ∷ [];
        } }
    ensures information { tell_here (Information machine_rows)
        ≡ record laid {
          start = record { entry = 0x10; rax = 0x2bad_b002; rbx = 0x5000; rsi = 0x13 };
        } }
{}

/// The bytes of each part at its place, or why they cannot be made.
pub fn bytes_of_parts()
    ensures image { bytes_here (Image (highest parts.Kernel 1 0x7fff) (codes "abc")) laid
        ≡ Ok (codes "abc") }
    ensures initrd { bytes_here (Initrd (highest parts.Initrd 1 0x7fff) (codes "initrd")) laid
        ≡ Ok (codes "initrd") }
    ensures headers { bytes_here (Headers (highest parts.Headers 1 0x7fff) machine one_note) laid
        ≡ Ok (headers one_note (core_ranges machine)) }
    ensures notes_in_the_area { bytes_here
        (Headers (highest parts.Headers 1 0x7fff) machine
        (record { start = 0x40_0000; size = 0x400 } ∷ [])) laid
        ≡ Err (faults.Crash (crash.NotesOutside 0)) }
    ensures parameters { bytes_here (Parameters low_kernel machine_rows) laid
        ≡ Ok (params_text low_kernel machine_rows (codes "quiet") 0x5000 (Some (0x6000, 9))) }
    ensures long_command { bytes_here (Parameters low_kernel machine_rows)
        (record laid { command = replicate 23 0x61 })
        ≡ Err (faults.Params (params.CommandTooLong 23 22)) }
    ensures module { bytes_here (Module a_module) laid ≡ Ok (codes "files") }
    ensures information { bytes_here (Information machine_rows) laid
        ≡ Ok (info 0x5000 machine_rows (codes "quiet")
        (record { start = 0x7000; size = 5; text = codes "m0" } ∷ [])) }
{}

/// A segment more behind the others; the first reason why there is none stays.
pub fn segments_of_parts()
    ensures pushed { push_here laid (Ok (codes "abc"))
        ≡ record laid {
          list = record { bytes = []; mem = 0x7000; memsz = 0x1000 }
              ∷ record { bytes = codes "abc"; mem = 0x5000; memsz = 0x2000 } ∷ [];
        } }
    ensures first_fault { push_here laid (Err faults.UnknownImage)
        ≡ record laid { fault = Some faults.UnknownImage } }
    ensures second_fault { push_here (record laid { fault = Some faults.NoReserved })
        (Err faults.UnknownImage)
        ≡ record laid { fault = Some faults.NoReserved } }
{}
