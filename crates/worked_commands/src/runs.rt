//! Runs of a list: how often, what is said of them, and what they leave. The list moves page 13 to page 2, and has swap
//! page 11.

ghost use Rattle.std.specs.Prelude.{◌≡◌, ◌++◌, Some, None, true, false, codes};
ghost use Rattle.kx_pages.specs.Bytes.{page_of};
ghost use Rattle.kx_pages.specs.declared.image.Mode.TheVariants as mode;
ghost use Rattle.kx_pages.specs.declared.image.Wish.TheVariants as wish;
ghost use Rattle.page_memory.specs.Contents.{Contents, at};
ghost use Rattle.purgatory_link.specs.RegionTest.{test};
ghost use Rattle.purgatory_link.specs.declared.region_test.RegionTest.TheVariants as tests;
ghost use Rattle.kexec_words.specs.declared.commands.Runs.TheVariants.{Once, Twice};
ghost use Rattle.list_commands.specs.Exec.{is_not_kept, lacks_swap_page, runs_asked, runs_of};
ghost use Rattle.list_commands.specs.Records.{list_files};
ghost use Rattle.command_parts.specs.Runs.{IsOnce, after_runs, run_text, wish_of};
ghost use Rattle.load_commands.specs.Startup.{planned_startup};
ghost use Rattle.command_parts.specs.Startup.{purgatory_places, recorded_startup};
ghost use Rattle.worked_commands.specs.Inputs.{three_bytes_record};
ghost use Rattle.worked_commands.specs.Runs.{kept_over, kept_record, record_with_purgatory};
ghost use Rattle.worked_commands.specs.Texts.{no_memory, purgatory_plan, registers};

/// How often a list runs, by the words and by its mode.
pub fn runs_that_are_asked()
    ensures plain { wish_of None ≡ wish.Plain }
    ensures once { wish_of (Some Once) ≡ wish.Kept }
    ensures twice { wish_of (Some Twice) ≡ wish.Kept }
    ensures plain_list { runs_of false mode.Plain ≡ None }
    ensures kept_list { runs_of false (mode.Kept 0x11) ≡ Some Once }
    ensures kept_list_twice { runs_of true (mode.Kept 0x11) ≡ Some Twice }
    ensures lacks_a_swap_page { lacks_swap_page true mode.Plain ≡ true }
    ensures needs_none { lacks_swap_page false mode.Plain ≡ false }
    ensures has_one { lacks_swap_page true (mode.Kept 0x11) ≡ false }
    ensures of_files { runs_asked true (list_files no_memory kept_record) ≡ Some Twice }
    ensures of_plain_files { is_not_kept true (list_files no_memory three_bytes_record) ≡ true }
    ensures not_of_kept_files { is_not_kept true (list_files no_memory kept_record) ≡ false }
    ensures none_is_once { IsOnce None }
    ensures once_is_once { IsOnce (Some Once) }
    ensures twice_is_not_once { IsOnce (Some Twice) → ⊥ }
{}

/// Where a new kernel starts, and where its purgatory's table of regions and digest lie: both addresses are 0 without one.
pub fn startups()
    ensures none { purgatory_places 0 0 ≡ None }
    ensures both { purgatory_places 0x3000 0x3100
        ≡ Some (record { regions = 0x3000; digest = 0x3100 }) }
    ensures table_at_0 { purgatory_places 0 0x3100
        ≡ Some (record { regions = 0; digest = 0x3100 }) }
    ensures digest_at_0 { purgatory_places 0x3000 0
        ≡ Some (record { regions = 0x3000; digest = 0 }) }
    ensures planned { planned_startup purgatory_plan
        ≡ record {
          start = registers;
          purgatory = Some (record { regions = 0x3000; digest = 0x3100 });
        } }
    ensures recorded { recorded_startup record_with_purgatory
        ≡ record {
          start = registers;
          purgatory = Some (record { regions = 0x3000; digest = 0x3100 });
        } }
    ensures recorded_without { recorded_startup three_bytes_record
        ≡ record {
          start = record { entry = 0x2000; rax = 0; rbx = 0; rsi = 0 };
          purgatory = None;
        } }
{}

/// What is said: the list, then each run; after one run the test of a purgatory's regions, after two runs no test.
pub fn texts_of_runs()
    ensures plain { (m : Contents) → run_text None (kept_over m)
        (record { start = registers; purgatory = None })
        ≡ codes "accepted words 4 links 1 pairs 1\nhead 12002 control 10000 swap 11000\n"
        ++ codes "start entry 2a00 rax 2badb002 rbx 9500 rsi 90000\nran 4\n" }
    ensures once { (m : Contents) → test (after_runs (Some Once) (kept_over m)) 0x3000 0x3100
        ≡ tests.Wild 2 → run_text (Some Once) (kept_over m) (planned_startup purgatory_plan)
        ≡ codes "accepted words 4 links 1 pairs 1\nhead 12002 control 10000 swap 11000\n"
        ++ codes "start entry 2a00 rax 2badb002 rbx 9500 rsi 90000\nran 4\nregions wild\n" }
    ensures twice { (m : Contents)
        → run_text (Some Twice) (kept_over m) (planned_startup purgatory_plan)
        ≡ codes "accepted words 4 links 1 pairs 1\nhead 12002 control 10000 swap 11000\n"
        ++ codes "start entry 2a00 rax 2badb002 rbx 9500 rsi 90000\nran 4\nran 4\n" }
{}

/// What the runs leave: a plain run each page of the segments; a run with context preserved exchanges the pair by way of
/// the swap page, and a second one exchanges it again.
pub fn memory_after_runs()
    ensures plain_destination { (m : Contents) → after_runs None (kept_over m) 2
        ≡ page_of (codes "abc") }
    ensures plain_source { (m : Contents) → after_runs None (kept_over m) 0x13 ≡ at m 0x13 }
    ensures once_destination { (m : Contents) → after_runs (Some Once) (kept_over m) 2
        ≡ at m 0x13 }
    ensures once_source { (m : Contents) → after_runs (Some Once) (kept_over m) 0x13 ≡ at m 2 }
    ensures once_swap_page { (m : Contents) → after_runs (Some Once) (kept_over m) 0x11
        ≡ at m 0x13 }
    ensures twice_destination { (m : Contents) → after_runs (Some Twice) (kept_over m) 2
        ≡ at m 2 }
    ensures twice_source { (m : Contents) → after_runs (Some Twice) (kept_over m) 0x13
        ≡ at m 0x13 }
    ensures twice_swap_page { (m : Contents) → after_runs (Some Twice) (kept_over m) 0x11
        ≡ at m 2 }
{}
