//! What each command reads of its files, and which of several faults is answered. The files that are spoiled are `?`.

ghost use Rattle.std.specs.Prelude.{◌≡◌, ◌+◌, ◌*◌, ◌^◌, ◌∷◌, [], true, false, Some, None, Result, Ok, Err, codes};
ghost use Rattle.crash_headers.specs.declared.fault.NoteFault.TheVariants as notes;
ghost use Rattle.image_slots.specs.declared.fault.EventsFault.TheVariants as events;
ghost use Rattle.image_slots.specs.Events.{Panic};
ghost use Rattle.kx_pages.specs.declared.image.Mode.TheVariants as mode;
ghost use Rattle.kx_pages.specs.declared.image.Wish.TheVariants as wish;
ghost use Rattle.load_record.specs.declared.fault.RecFault.TheVariants as records;
ghost use Rattle.memory_map.specs.declared.fault.MapFault.TheVariants as maps;
ghost use Rattle.page_memory.specs.declared.fault.MemFault.TheVariants as memories;
ghost use Rattle.page_pool.specs.declared.fault.PoolFault.TheVariants as pools;
ghost use Rattle.resident_planner.specs.declared.fault.PairsFault.TheVariants as pairs;
ghost use Rattle.file_commands.specs.Taking.{Refusal, reads};
ghost use Rattle.kexec_words.specs.declared.commands.Runs.TheVariants.{Twice};
ghost use Rattle.load_commands.specs.Boot.{boot_entry, boots};
ghost use Rattle.load_commands.specs.BootResident.{boot_resident_entry};
ghost use Rattle.load_commands.specs.CoreFile.{core_entry};
ghost use Rattle.load_commands.specs.Drill.{drill_entry};
ghost use Rattle.list_commands.specs.Check.{check_entry};
ghost use Rattle.list_commands.specs.Dump.{dump_entry};
ghost use Rattle.list_commands.specs.Exec.{exec_entry};
ghost use Rattle.list_commands.specs.Records.{crash_files, list_files, load_by, record_limit};
ghost use Rattle.load_commands.specs.Files.{limit_by, usable_below};
ghost use Rattle.command_parts.specs.Files.{memory_limit, text_limit};
ghost use Rattle.load_commands.specs.Inputs.{LoadInputs, left_after, purgatory_limit};
ghost use Rattle.load_commands.specs.Load.{load_entry, load_wish};
ghost use Rattle.load_commands.specs.LoadPanic.{load_panic_entry};
ghost use Rattle.list_commands.specs.Migrate.{migrate_entry};
ghost use Rattle.load_commands.specs.Sample.{sample_entry};
ghost use Rattle.command_parts.specs.Startup.{recorded_startup};
ghost use Rattle.list_commands.specs.Trace.{mode_by, trace_entry};
ghost use Rattle.command_parts.specs.Outputs.{Made};
ghost use Rattle.command_parts.specs.declared.reason.Reason.{Reason};
ghost use Rattle.command_parts.specs.declared.reason.InputFault.TheVariants as inputs;
ghost use Rattle.worked_commands.specs.Inputs.{all_asked, all_ram, each_file, few_read, spoiled, three_bytes, three_bytes_record, unreadable};
ghost use Rattle.worked_commands.specs.Names.{boot_all, boot_raw, boot_resident_raw, core_memory, drill_events, exec_record, load_panic_of, load_raw, migrate_record, of_record, trace_memory};
ghost use Rattle.worked_commands.specs.Texts.{no_memory};

/// The limits of files: a memory file of 131,072 pages, a record of 16 segments and 65,536 pages, and so on.
pub fn limits_of_files()
    ensures memory { memory_limit ≡ 16 + 131072 * (8 + 4096) }
    ensures load_record { record_limit ≡ 96 + (16 * (24 + 32) + 65536 * 4096) }
    ensures text { text_limit ≡ 2 ^ 20 }
    ensures purgatory { purgatory_limit ≡ 2 ^ 24 }
    ensures left { left_after 10 (Some (codes "abc")) ≡ 7 }
    ensures all_left { left_after 10 None ≡ 10 }
{}

/// The pages of a pool below its limit, which page 12 is the first past.
pub fn pages_below_a_limit()
    ensures limit { limit_by (Some 0x12) ≡ 0x12000 }
    ensures no_limit { limit_by None ≡ 0x4000_0000_0000 }
    ensures usable { usable_below (Some 0x12) (0x13 ∷ 0x11 ∷ 0x12 ∷ 0x10 ∷ [])
        ≡ 0x11 ∷ 0x10 ∷ [] }
    ensures all_usable { usable_below None (0x13 ∷ 0x11 ∷ []) ≡ 0x13 ∷ 0x11 ∷ [] }
{}

/// What `boot` and `load` read, and what their words ask of it.
pub fn files_of_boots_and_loads()
    ensures boot { reads (boot_entry (boot_raw (Some Twice))).command.takes each_file
        ≡ Ok few_read }
    ensures boot_all { reads (boot_entry boot_all).command.takes each_file
        ≡ Ok (record {
          memory = no_memory;
          usable = 0x10 ∷ 0x11 ∷ [];
          map = Some all_ram;
          request = all_asked;
        }) }
    ensures boot_twice { (i : LoadInputs) (r : Result Made (Refusal Reason))
        → (boot_entry (boot_raw (Some Twice))).command.makes i r
        → boots (Some Twice) (codes "o") i r }
    ensures load { reads (load_entry (load_raw false)).command.takes each_file ≡ Ok few_read }
    ensures load_plain { load_wish (load_raw false) ≡ wish.Plain }
    ensures load_kept { load_wish (load_raw true) ≡ wish.Kept }
{}

/// What `load-panic` reads: the request is that of a crash kernel, with its notes.
pub fn files_of_load_panic()
    ensures with_notes { reads
        (load_panic_entry (load_panic_of (Some (codes "n")))).command.takes each_file
        ≡ Ok (record {
          memory = no_memory;
          map = all_ram;
          request = record all_asked {
            crash = true;
            modules = [];
            notes = record { start = 0x200000; size = 0x400 } ∷ [];
          };
        }) }
    ensures without_notes { reads (load_panic_entry (load_panic_of None)).command.takes each_file
        ≡ Ok (record {
          memory = no_memory;
          map = all_ram;
          request = record all_asked { crash = true; modules = [] };
        }) }
{}

/// What `check`, `dump`, `exec` and `migrate` read: by the kind of the record its list, or its head, and its segments.
pub fn files_of_records()
    ensures check { reads (check_entry of_record).command.takes each_file
        ≡ Ok (load_by no_memory three_bytes_record) }
    ensures dump { reads (dump_entry of_record).command.takes each_file
        ≡ Ok (load_by no_memory three_bytes_record) }
    ensures exec { reads (exec_entry (exec_record true)).command.takes each_file
        ≡ Ok (load_by no_memory three_bytes_record) }
    ensures migrate { reads (migrate_entry migrate_record).command.takes each_file
        ≡ Ok three_bytes_record }
    ensures list { list_files no_memory three_bytes_record
        ≡ record {
          memory = no_memory;
          image = record { head = 0x11002; mode = mode.Plain; control = 0x10 };
          segments = three_bytes;
          startup = recorded_startup three_bytes_record;
        } }
    ensures head { crash_files no_memory three_bytes_record
        ≡ record {
          memory = no_memory;
          head = 0x11002;
          segments = three_bytes;
          startup = recorded_startup three_bytes_record;
        } }
{}

/// What the other commands read, and the mode of the moves that `trace` is asked for.
pub fn files_of_other_commands()
    ensures resident { reads (boot_resident_entry boot_resident_raw).command.takes each_file
        ≡ Ok (record { load = few_read; pairs = (2, 0x13) ∷ [] }) }
    ensures drill { reads (drill_entry drill_events).command.takes each_file
        ≡ Ok (record {
          memory = no_memory;
          pool = 0x10 ∷ 0x11 ∷ 0x12 ∷ [];
          map = all_ram;
          events = Panic ∷ [];
        }) }
    ensures trace { reads (trace_entry (trace_memory None)).command.takes each_file ≡ Ok no_memory }
    ensures trace_mode { mode_by (Some 0x13000) ≡ mode.Kept 0x13 }
    ensures trace_plain { mode_by None ≡ mode.Plain }
    ensures core { reads (core_entry core_memory).command.takes each_file ≡ Ok no_memory }
    ensures sample { reads (sample_entry 77).command.takes each_file ≡ Ok tt }
{}

/// Of several spoiled files the one that is read first is answered: memory, pool, map; memory, map, notes; memory, record.
pub fn first_of_spoiled_files()
    ensures boot_memory { reads (boot_entry boot_all).command.takes
        (spoiled (codes "m" ∷ codes "p" ∷ codes "t" ∷ []))
        ≡ Err (unreadable (inputs.Mem memories.BadMagic)) }
    ensures boot_pool { reads (boot_entry boot_all).command.takes
        (spoiled (codes "p" ∷ codes "t" ∷ []))
        ≡ Err (unreadable (inputs.Pool (pools.BadLine 1))) }
    ensures boot_map { reads (boot_entry boot_all).command.takes (spoiled (codes "t" ∷ []))
        ≡ Err (unreadable (inputs.Map (maps.BadLine 1))) }
    ensures panic_memory { reads (load_panic_entry (load_panic_of (Some (codes "n")))).command.takes
        (spoiled (codes "m" ∷ codes "t" ∷ codes "n" ∷ []))
        ≡ Err (unreadable (inputs.Mem memories.BadMagic)) }
    ensures panic_map { reads (load_panic_entry (load_panic_of (Some (codes "n")))).command.takes
        (spoiled (codes "t" ∷ codes "n" ∷ [])) ≡ Err (unreadable (inputs.Map (maps.BadLine 1))) }
    ensures panic_notes { reads (load_panic_entry (load_panic_of (Some (codes "n")))).command.takes
        (spoiled (codes "n" ∷ [])) ≡ Err (unreadable (inputs.Notes (notes.BadLine 1))) }
    ensures check_memory { reads (check_entry of_record).command.takes
        (spoiled (codes "m" ∷ codes "r" ∷ []))
        ≡ Err (unreadable (inputs.Mem memories.BadMagic)) }
    ensures check_record { reads (check_entry of_record).command.takes (spoiled (codes "r" ∷ []))
        ≡ Err (unreadable (inputs.Rec records.BadMagic)) }
    ensures migrate { reads (migrate_entry migrate_record).command.takes (spoiled (codes "r" ∷ []))
        ≡ Err (unreadable (inputs.Rec records.BadMagic)) }
{}

/// The same of `boot-resident`: memory, pool, pairs; and of `drill`: memory, pool, map, events.
pub fn first_of_more_spoiled_files()
    ensures resident_memory { reads (boot_resident_entry boot_resident_raw).command.takes
        (spoiled (codes "m" ∷ codes "p" ∷ codes "l" ∷ []))
        ≡ Err (unreadable (inputs.Mem memories.BadMagic)) }
    ensures resident_pool { reads (boot_resident_entry boot_resident_raw).command.takes
        (spoiled (codes "p" ∷ codes "l" ∷ []))
        ≡ Err (unreadable (inputs.Pool (pools.BadLine 1))) }
    ensures resident_pairs { reads (boot_resident_entry boot_resident_raw).command.takes
        (spoiled (codes "l" ∷ []))
        ≡ Err (unreadable (inputs.Pairs (pairs.BadLine 1))) }
    ensures drill_memory { reads (drill_entry drill_events).command.takes
        (spoiled (codes "m" ∷ codes "p" ∷ codes "t" ∷ codes "e" ∷ []))
        ≡ Err (unreadable (inputs.Mem memories.BadMagic)) }
    ensures drill_pool { reads (drill_entry drill_events).command.takes
        (spoiled (codes "p" ∷ codes "t" ∷ codes "e" ∷ []))
        ≡ Err (unreadable (inputs.Pool (pools.BadLine 1))) }
    ensures drill_map { reads (drill_entry drill_events).command.takes
        (spoiled (codes "t" ∷ codes "e" ∷ []))
        ≡ Err (unreadable (inputs.Map (maps.BadLine 1))) }
    ensures drill_events { reads (drill_entry drill_events).command.takes (spoiled (codes "e" ∷ []))
        ≡ Err (unreadable (inputs.Events (events.BadLine 1))) }
    ensures trace { reads (trace_entry (trace_memory None)).command.takes (spoiled (codes "m" ∷ []))
        ≡ Err (unreadable (inputs.Mem memories.BadMagic)) }
    ensures core { reads (core_entry core_memory).command.takes (spoiled (codes "m" ∷ []))
        ≡ Err (unreadable (inputs.Mem memories.BadMagic)) }
{}
