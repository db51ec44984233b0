//! The lines that commands say. The numbers of a line are all different, so that none can stand in another's place.

ghost use Rattle.std.specs.Prelude.{◌≡◌, ◌++◌, ◌∷◌, [], Some, None, codes};
ghost use Rattle.kx_pages.specs.Bytes.{Mem};
ghost use Rattle.kx_pages.specs.declared.image.Mode.TheVariants as mode;
ghost use Rattle.purgatory_link.specs.RegionTest.{test};
ghost use Rattle.purgatory_link.specs.declared.region_test.RegionTest.TheVariants as tests;
ghost use Rattle.relocate_machine.specs.declared.step.Outcome.TheVariants as outcomes;
ghost use Rattle.sample_load.specs.Samples.{memory_digest};
ghost use Rattle.load_commands.specs.BootResident.{copied_line, resident_text};
ghost use Rattle.load_commands.specs.CoreFile.{core_line};
ghost use Rattle.list_commands.specs.Migrate.{segments_line};
ghost use Rattle.load_commands.specs.Startup.{planned_startup};
ghost use Rattle.command_parts.specs.Startup.{purgatory_places};
ghost use Rattle.command_parts.specs.Texts.{accepted_line, crash_line, crash_lines, crash_ran_text, head_line, hexadecimal, load_lines, purgatory_line, ran_line, regions_line, start_line};
ghost use Rattle.load_commands.specs.Sample.{memory_line};
ghost use Rattle.list_commands.specs.Trace.{mode_by, outcome_line};
ghost use Rattle.worked_commands.specs.Texts.{core_of_five, kept_checked, kept_image, plain_image, purgatory_plan, registers};

/// Hexadecimal numbers are in lower case, without leading zeros.
pub fn hexadecimal_numbers()
    ensures lower_case { hexadecimal 0xabc_def0 ≡ codes "abcdef0" }
    ensures zero { hexadecimal 0 ≡ codes "0" }
    ensures sixteen { hexadecimal 16 ≡ codes "10" }
    ensures last { hexadecimal 0xffff_ffff_ffff_ffff ≡ codes "ffffffffffffffff" }
{}

/// What is said of an accepted list, of its head and of the start.
pub fn lines_of_a_load()
    ensures accepted { accepted_line 123 45 6 ≡ codes "accepted words 123 links 45 pairs 6\n" }
    ensures plain_head { head_line plain_image ≡ codes "head 11002 control 10000\n" }
    ensures kept_head { head_line kept_image ≡ codes "head 12002 control 10000 swap 11000\n" }
    ensures start { start_line registers
        ≡ codes "start entry 2a00 rax 2badb002 rbx 9500 rsi 90000\n" }
    ensures load { load_lines 7 3 2 plain_image registers
        ≡ codes "accepted words 7 links 3 pairs 2\nhead 11002 control 10000\n"
        ++ codes "start entry 2a00 rax 2badb002 rbx 9500 rsi 90000\n" }
{}

/// What is said of runs.
pub fn lines_of_runs()
    ensures ran { ran_line 120 ≡ codes "ran 120\n" }
    ensures done { outcome_line (outcomes.Done 120) ≡ codes "done 120\n" }
    ensures running { outcome_line (outcomes.Running 99) ≡ codes "running 99\n" }
    ensures off { outcome_line (outcomes.Off 0x4000_0000_0000 12)
        ≡ codes "off 400000000000 after 12\n" }
    ensures copies { mode_by None ≡ mode.Plain }
    ensures exchanges { mode_by (Some 0x11000) ≡ mode.Kept 0x11 }
{}

/// What is said of a crash kernel, and of its run.
pub fn lines_of_a_crash_kernel()
    ensures pages { crash_line 16 ≡ codes "accepted crash pages 16\n" }
    ensures load { crash_lines 16 registers
        ≡ codes "accepted crash pages 16\n"
        ++ codes "start entry 2a00 rax 2badb002 rbx 9500 rsi 90000\n" }
    ensures run { (N : Mem) → crash_ran_text N 16 3 (record { start = registers; purgatory = None })
        ≡ codes "accepted crash pages 16\n"
        ++ codes "start entry 2a00 rax 2badb002 rbx 9500 rsi 90000\nran 3\n" }
    ensures run_with_a_purgatory { (N : Mem) → test N 0x3000 0x3100 ≡ tests.Same
        → crash_ran_text N 16 3 (planned_startup purgatory_plan)
        ≡ codes "accepted crash pages 16\n"
        ++ codes "start entry 2a00 rax 2badb002 rbx 9500 rsi 90000\nran 3\nregions same\n" }
{}

/// What is said of the test of a purgatory's regions, whose table is at 3000 and whose digest is at 3100.
pub fn lines_of_a_purgatory()
    ensures same { regions_line tests.Same ≡ codes "regions same\n" }
    ensures differ { regions_line (tests.Differs (1 ∷ []) (2 ∷ [])) ≡ codes "regions differ\n" }
    ensures wild { regions_line (tests.Wild 5) ≡ codes "regions wild\n" }
    ensures no_purgatory { (N : Mem) → purgatory_line N None ≡ [] }
    ensures found { (N : Mem) → test N 0x3000 0x3100 ≡ tests.Wild 5
        → purgatory_line N (purgatory_places 0x3000 0x3100) ≡ codes "regions wild\n" }
{}

/// What is said by `migrate`, `core`, `boot-resident` and `sample` alone.
pub fn lines_of_single_commands()
    ensures segments { segments_line 16 ≡ codes "record segments 16\n" }
    ensures core { core_line core_of_five ≡ codes "core loads 2 notes 344 bytes 5\n" }
    ensures copied { copied_line 40 ≡ codes "copied 40\n" }
    ensures resident { resident_text kept_checked registers 40
        ≡ codes "accepted words 7 links 3 pairs 2\nhead 12002 control 10000 swap 11000\n"
        ++ codes "start entry 2a00 rax 2badb002 rbx 9500 rsi 90000\ncopied 40\nran 7\n" }
    ensures digest { (N : Mem) → memory_digest N ≡ 0xba ∷ 0x07 ∷ 0xff ∷ []
        → memory_line N ≡ codes "memory ba07ff\n" }
{}
