//! Which refusal of a plan comes first: most requests have two faults, and the later one is not told.

ghost use Rattle.std.specs.Prelude.{◌≡◌, ◌∷◌, [], true, Some, None, Err, codes, replicate};
ghost use Rattle.boot_params.specs.declared.fault.ParamsFault.TheVariants as params;
ghost use Rattle.bzimage.specs.declared.fault.BzFault.TheVariants as bz;
ghost use Rattle.crash_headers.specs.declared.fault.CrashFault.TheVariants as crash;
ghost use Rattle.elf_image.specs.declared.fault.ElfFault.TheVariants as elf;
ghost use Rattle.kx_pages.specs.declared.image.ImageType.TheVariants as types;
ghost use Rattle.purgatory_link.specs.declared.fault.LinkFault.TheVariants as link;
ghost use Rattle.segments.specs.declared.fault.SegFault.TheVariants as rules;
ghost use Rattle.kexec_plan.specs.Plan.{plan};
ghost use Rattle.plan_faults.specs.declared.fault.Part.TheVariants as parts;
ghost use Rattle.plan_faults.specs.declared.fault.PlanFault.TheVariants as faults;
ghost use Rattle.worked_plans.specs.LinuxKernels.{linux_file};
ghost use Rattle.worked_plans.specs.Machines.{machine, open_machine, ram_of, reserved_of};
ghost use Rattle.worked_plans.specs.Multiboots.{a_module, multiboot_file};
ghost use Rattle.worked_plans.specs.Purgatories.{purgatory_file};
ghost use Rattle.worked_plans.specs.Requests.{asked};

/// The form comes first, then the ground of a crash kernel, a part without use, the kernel's file, and the purgatory's.
pub fn refusals_of_files()
    ensures form { plan (record (asked types.Auto (codes "ELF")) { crash = true }) None
        ≡ Err faults.UnknownImage }
    ensures crash_needs_a_bzimage { plan
        (record (asked types.Elf []) { crash = true; initrd = Some [] }) None
        ≡ Err faults.CrashNeedsBzimage }
    ensures area { plan
        (record (asked types.Bzimage []) { crash = true; modules = a_module ∷ [] })
        (Some open_machine)
        ≡ Err faults.NoReserved }
    ensures use_of_a_part { plan (record (asked types.Elf []) { command = Some [] }) None
        ≡ Err (faults.Unused parts.Command) }
    ensures kernel { plan (record (asked types.Elf (codes "abc")) { purgatory = Some [] }) None
        ≡ Err (faults.Elf elf.NotElf) }
    ensures kernel_of_a_crash { plan
        (record (asked types.Bzimage (linux_file 2)) { crash = true; purgatory = Some [] })
        (Some machine)
        ≡ Err (faults.Bzimage bz.No64Entry) }
    ensures purgatory { plan
        (record (asked (types.Raw 0 0) (codes "abc")) { purgatory = Some (codes "abc") })
        (Some machine)
        ≡ Err (faults.Object elf.NotElf) }
    ensures address { plan (asked (types.Raw 0x2800 0x2800) (codes "abc")) None
        ≡ Err (faults.Segments (rules.BadAddress 0)) }
{}

/// A part without a place. That a command is too long, or that notes lie in the area, comes later, when the parts are made.
pub fn parts_without_a_place()
    ensures kernel { plan
        (record (asked types.Bzimage (linux_file 1)) { initrd = Some (codes "initrd") })
        (Some (ram_of 0 8))
        ≡ Err (faults.NoHole parts.Kernel) }
    ensures initrd { plan
        (record (asked types.Bzimage (linux_file 1)) {
          initrd = Some (codes "initrd");
          command = Some (replicate 23 0x61);
        }) (Some (ram_of 0x184 3))
        ≡ Err (faults.NoHole parts.Initrd) }
    ensures parameters { plan (asked types.Bzimage (linux_file 1)) (Some (ram_of 0x184 3))
        ≡ Err (faults.NoHole parts.Parameters) }
    ensures headers { plan
        (record (asked types.Bzimage (linux_file 1)) {
          crash = true;
          notes = record { start = 0x18_4000; size = 0x400 } ∷ [];
        }) (Some (reserved_of 0x184 3))
        ≡ Err (faults.NoHole parts.Headers) }
    ensures module { plan
        (record (asked types.Multiboot multiboot_file) { modules = a_module ∷ [] })
        (Some (ram_of 0x100 1))
        ≡ Err (faults.NoHole parts.Module) }
    ensures information { plan (asked types.Multiboot multiboot_file) (Some (ram_of 0x100 1))
        ≡ Err (faults.NoHole parts.Information) }
    ensures purgatory { plan
        (record (asked (types.Raw 0x10_0000 0) (codes "abc")) {
          purgatory = Some (purgatory_file 136);
        }) (Some (ram_of 0x100 1))
        ≡ Err (faults.NoHole parts.Purgatory) }
{}

/// Behind the places: the bytes of the parts in their order, the purgatory's symbols, and the rules of segments.
pub fn refusals_behind_the_places()
    ensures place_of_the_purgatory { plan
        (record (asked types.Bzimage (linux_file 1)) {
          command = Some (replicate 23 0x61);
          purgatory = Some (purgatory_file 136);
        }) (Some (ram_of 0x184 5))
        ≡ Err (faults.NoHole parts.Purgatory) }
    ensures headers { plan
        (record (asked types.Bzimage (linux_file 3)) {
          crash = true;
          command = Some (replicate 23 0x61);
          notes = record { start = 0x40_0000; size = 0x400 } ∷ [];
        }) (Some machine)
        ≡ Err (faults.Crash (crash.NotesOutside 0)) }
    ensures parameters { plan
        (record (asked types.Bzimage (linux_file 1)) {
          command = Some (replicate 23 0x61);
          purgatory = Some (purgatory_file 128);
        }) (Some machine)
        ≡ Err (faults.Params (params.CommandTooLong 23 22)) }
    ensures parameters_of_a_crash { plan
        (record (asked types.Bzimage (linux_file 3)) {
          crash = true;
          command = Some (codes "quiet!");
        }) (Some machine)
        ≡ Err (faults.Params (params.CommandTooLong 23 22)) }
    ensures symbols { plan
        (record (asked (types.Raw 0 0) (codes "abc")) { purgatory = Some (purgatory_file 128) })
        (Some machine)
        ≡ Err (faults.Link (link.WrongSize 128)) }
    ensures memory { plan (asked (types.Raw 0 0) (codes "abc")) (Some machine)
        ≡ Err (faults.Segments (rules.NotRam 0)) }
    ensures half_of_memory { plan (asked types.Bzimage (linux_file 1)) (Some (ram_of 0x184 5))
        ≡ Err (faults.Segments rules.HalfOfMemory) }
{}
