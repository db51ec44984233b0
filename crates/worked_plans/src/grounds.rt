//! What is known of memory: where parts may lie, the rows that a kernel gets, and the rules of segments.

ghost use Rattle.std.specs.Prelude.{◌≡◌, ◌∷◌, [], true, false, Some, None, Ok, Err, map};
ghost use Rattle.kx_pages.specs.declared.image.ImageType.TheVariants as types;
ghost use Rattle.segments.specs.declared.fault.SegFault.TheVariants as rules;
ghost use Rattle.kexec_plan.specs.Formats.{open_ground, reserved_ground, crash_ground};
ghost use Rattle.kexec_plan.specs.Ground.{Unknown, Machine, Reserved, ram, rows, most};
ghost use Rattle.kexec_plan.specs.Rules.{ram_runs, first_refusal, unless_refused, test_segments};
ghost use Rattle.plan_faults.specs.declared.fault.PlanFault.TheVariants as faults;
ghost use Rattle.worked_plans.specs.Forms.{ground_in};
ghost use Rattle.worked_plans.specs.Machines.{machine, machine_rows, machine_ram, open_machine, open_ram, area, crash_rows, pages_at};
ghost use Rattle.worked_plans.specs.Requests.{asked, asked_crash};

/// Parts lie in the RAM of a machine, or in the area that is reserved for a crash kernel; nowhere, where nothing is known.
pub fn pages_for_parts()
    ensures unknown { map (ram Unknown) (0 ∷ 1 ∷ 0x100 ∷ []) ≡ false ∷ false ∷ false ∷ [] }
    ensures low { map (ram (Machine machine)) (0 ∷ 1 ∷ 0x9f ∷ 0xa0 ∷ 0xff ∷ [])
        ≡ false ∷ true ∷ true ∷ false ∷ false ∷ [] }
    ensures around_the_area { map (ram (Machine machine))
        (0x100 ∷ 0x3ff ∷ 0x400 ∷ 0x4ff ∷ 0x500 ∷ 0x7ff ∷ 0x800 ∷ [])
        ≡ true ∷ true ∷ false ∷ false ∷ true ∷ true ∷ false ∷ [] }
    ensures above_4_gib { map (ram (Machine machine))
        (0xf_ffff ∷ 0x10_0000 ∷ 0x10_00ff ∷ 0x10_0100 ∷ [])
        ≡ false ∷ true ∷ true ∷ false ∷ [] }
    ensures reserved { map (ram (Reserved machine area)) (0x3ff ∷ 0x400 ∷ 0x4ff ∷ 0x500 ∷ [])
        ≡ false ∷ true ∷ true ∷ false ∷ [] }
{}

/// The rows of the map for the kernel, and where a purgatory may lie.
pub fn rows_and_limits()
    ensures no_rows { rows Unknown ≡ [] }
    ensures rows { rows (Machine machine) ≡ machine_rows }
    ensures crash_rows { rows (Reserved machine area) ≡ crash_rows }
    ensures unknown { map (most Unknown) (false ∷ true ∷ []) ≡ 0x7fff_ffff ∷ 0x7fff_ffff ∷ [] }
    ensures machine { map (most (Machine machine)) (false ∷ true ∷ [])
        ≡ 0x7fff_ffff ∷ 0x7fff_ffff ∷ [] }
    ensures reserved { map (most (Reserved machine area)) (false ∷ true ∷ [])
        ≡ 0xffff_ffff ∷ 0x3fff_ffff_efff ∷ [] }
{}

/// What is known for a request. A crash kernel of another form than a bzImage is refused before the map is looked at.
pub fn grounds_of_requests()
    ensures open { map open_ground (None ∷ Some machine ∷ []) ≡ Unknown ∷ Machine machine ∷ [] }
    ensures reserved { map (reserved_ground machine) (None ∷ Some area ∷ [])
        ≡ Err faults.NoReserved ∷ Ok (Reserved machine area) ∷ [] }
    ensures crash { map crash_ground (None ∷ Some open_machine ∷ Some machine ∷ [])
        ≡ Err faults.NoReserved ∷ Err faults.NoReserved ∷ Ok (Reserved machine area) ∷ [] }
    ensures normal { ground_in (asked types.Auto []) (Some machine) types.Elf
        ≡ Ok (Machine machine) }
    ensures without_a_map { ground_in (asked types.Auto []) None types.Bzimage ≡ Ok Unknown }
    ensures crash_bzimage { ground_in asked_crash (Some machine) types.Bzimage
        ≡ Ok (Reserved machine area) }
    ensures no_area { ground_in asked_crash (Some open_machine) types.Bzimage
        ≡ Err faults.NoReserved }
    ensures crash_elf { ground_in asked_crash None types.Elf ≡ Err faults.CrashNeedsBzimage }
    ensures crash_raw { ground_in asked_crash (Some machine) (types.Raw 0x1000 0x1000)
        ≡ Err faults.CrashNeedsBzimage }
    ensures crash_multiboot { ground_in asked_crash (Some machine) types.Multiboot
        ≡ Err faults.CrashNeedsBzimage }
{}

/// The RAM of a machine in runs of pages.
pub fn runs_of_memory()
    ensures machine { ram_runs machine ≡ machine_ram }
    ensures without_an_area { ram_runs open_machine ≡ open_ram }
{}

/// The rules of segments: page 0 is no RAM, which counts where a machine is known; the area is for a crash kernel alone.
/// The machine has 1,951 pages of RAM, of which a kernel may take 975.
pub fn rules_of_segments()
    ensures unknown { first_refusal Unknown (pages_at 0 1 ∷ []) ≡ None }
    ensures machine { first_refusal (Machine machine) (pages_at 0 1 ∷ []) ≡ Some (rules.NotRam 0) }
    ensures in_ram { first_refusal (Machine machine) (pages_at 0x3fe 2 ∷ []) ≡ None }
    ensures in_the_area { first_refusal (Machine machine) (pages_at 0x3fe 2 ∷ pages_at 0x400 1 ∷ [])
        ≡ Some (rules.NotRam 1) }
    ensures crash { first_refusal (Reserved machine area) (pages_at 0x400 1 ∷ []) ≡ None }
    ensures crash_outside { first_refusal (Reserved machine area)
        (pages_at 0x400 1 ∷ pages_at 0x3ff 1 ∷ [])
        ≡ Some (rules.OutsideReserved 1) }
    ensures half { first_refusal (Machine machine) (pages_at 0x100 975 ∷ [])
        ≡ Some (rules.NotRam 0) }
    ensures more_than_half { first_refusal (Machine machine) (pages_at 0x100 976 ∷ [])
        ≡ Some rules.HalfOfMemory }
    ensures passed { unless_refused (pages_at 7 1 ∷ []) None ≡ Ok (pages_at 7 1 ∷ []) }
    ensures refused { unless_refused (pages_at 7 1 ∷ []) (Some rules.TooMany)
        ≡ Err (faults.Segments rules.TooMany) }
    ensures tested { test_segments (Machine machine) (pages_at 0x3fe 2 ∷ [])
        ≡ Ok (pages_at 0x3fe 2 ∷ []) }
    ensures not_tested { test_segments (Machine machine) (pages_at 0x3ff 2 ∷ [])
        ≡ Err (faults.Segments (rules.NotRam 0)) }
{}
