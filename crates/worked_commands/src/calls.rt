//! What the top call promises of commands over files: which are in order, which are refused and why, and what stands after
//! one that was done.

ghost use Rattle.std.specs.Prelude.{◌≡◌, ◌∷◌, [], true, false, Some, None, Ok, Err, codes};
ghost use Rattle.crash_headers.specs.declared.fault.NoteFault.TheVariants as notes;
ghost use Rattle.image_slots.specs.declared.fault.EventsFault.TheVariants as events;
ghost use Rattle.load_record.specs.declared.fault.RecFault.TheVariants as records;
ghost use Rattle.page_memory.specs.declared.fault.MemFault.TheVariants as memories;
ghost use Rattle.page_pool.specs.declared.fault.PoolFault.TheVariants as pools;
ghost use Rattle.resident_planner.specs.declared.fault.PairsFault.TheVariants as pairs;
ghost use Rattle.file_commands.specs.Answers.{unread};
ghost use Rattle.file_commands.specs.Taking.{by, reads};
ghost use Rattle.kexec_words.specs.Values as words;
ghost use Rattle.command_table.specs.declared.faults.UsageWhy.TheVariants as usage;
ghost use Rattle.kexec_main.specs.Call.{EndsWithoutFiles, HasDone, HasRefusal, IsInOrder};
ghost use Rattle.kexec_main.specs.Commands.{Holds};
ghost use Rattle.command_parts.specs.declared.reason.InputFault.TheVariants as inputs;
ghost use Rattle.command_parts.specs.declared.reason.Reason.TheVariants as reasons;
ghost use Rattle.worked_commands.specs.Inputs.{each_file, short_pool, spoiled, three_bytes_file, unreadable};
ghost use Rattle.worked_commands.specs.Lists.{Always, GivenBy, Gives, Never};
ghost use Rattle.worked_commands.specs.Names.{boot_raw, boot_resident_raw, core_memory, drill_events, exec_record, load_panic_of, load_raw, migrate_record, of_record, trace_memory};

use kx_edge::{Shelf, Sink};

/// Commands over files of each kind, which have the record of a load and a memory without its list.
pub fn commands_in_order()
    ensures boot { IsInOrder (words.boot (boot_raw None)) each_file }
    ensures load { IsInOrder (words.load (load_raw false)) each_file }
    ensures dump { IsInOrder (words.dump of_record) each_file }
    ensures migrate { IsInOrder (words.migrate migrate_record) each_file }
    ensures sample { IsInOrder (words.sample 7) each_file }
    ensures exec_twice { IsInOrder (words.exec (exec_record true)) each_file → ⊥ }
    ensures spoiled_record { IsInOrder (words.migrate migrate_record) (spoiled (codes "r" ∷ []))
        → ⊥ }
    ensures short_pool { IsInOrder (words.boot (boot_raw None)) short_pool → ⊥ }
{}

/// Each command is refused for a file that its reader refuses.
pub fn refusals_of_files()
    ensures boot { HasRefusal (words.boot (boot_raw None)) (spoiled (codes "p" ∷ []))
        (unreadable (inputs.Pool (pools.BadLine 1))) }
    ensures load { HasRefusal (words.load (load_raw true)) (spoiled (codes "p" ∷ []))
        (unreadable (inputs.Pool (pools.BadLine 1))) }
    ensures load_panic { HasRefusal (words.load_panic (load_panic_of (Some (codes "n"))))
        (spoiled (codes "n" ∷ [])) (unreadable (inputs.Notes (notes.BadLine 1))) }
    ensures check { HasRefusal (words.check of_record) (spoiled (codes "r" ∷ []))
        (unreadable (inputs.Rec records.BadMagic)) }
    ensures dump { HasRefusal (words.dump of_record) (spoiled (codes "m" ∷ codes "r" ∷ []))
        (unreadable (inputs.Mem memories.BadMagic)) }
    ensures exec { HasRefusal (words.exec (exec_record true)) (spoiled (codes "r" ∷ []))
        (unreadable (inputs.Rec records.BadMagic)) }
    ensures trace { HasRefusal (words.trace (trace_memory None)) (spoiled (codes "m" ∷ []))
        (unreadable (inputs.Mem memories.BadMagic)) }
    ensures migrate { HasRefusal (words.migrate migrate_record) (spoiled (codes "r" ∷ []))
        (unreadable (inputs.Rec records.BadMagic)) }
    ensures boot_resident { HasRefusal (words.boot_resident boot_resident_raw)
        (spoiled (codes "l" ∷ [])) (unreadable (inputs.Pairs (pairs.BadLine 1))) }
    ensures drill { HasRefusal (words.drill drill_events) (spoiled (codes "e" ∷ []))
        (unreadable (inputs.Events (events.BadLine 1))) }
    ensures core { HasRefusal (words.core core_memory) (spoiled (codes "m" ∷ []))
        (unreadable (inputs.Mem memories.BadMagic)) }
{}

/// A command is refused for what its files are, and only for that.
pub fn refusals_of_what_was_read()
    ensures exec_twice { HasRefusal (words.exec (exec_record true)) each_file (by reasons.NotKept) }
    ensures exec_once { HasRefusal (words.exec (exec_record false)) each_file (by reasons.NotKept)
        → ⊥ }
    ensures short_pool { HasRefusal (words.boot (boot_raw None)) short_pool
        (by (reasons.NoPages 2 3)) }
    ensures other_need { HasRefusal (words.boot (boot_raw None)) short_pool
        (by (reasons.NoPages 2 2)) → ⊥ }
    ensures migrate { HasRefusal (words.migrate migrate_record) each_file
        (unreadable (inputs.Rec records.BadMagic)) → ⊥ }
    ensures sample { HasRefusal (words.sample 7) each_file (by reasons.NotKept) → ⊥ }
{}

/// What stands after a command that was done over files; a command that takes a file need not be done without files, and a
/// sample never misses one.
pub fn commands_that_were_done<S: Shelf, O: Sink>()
    ensures migrate { Gives S.Shelf O.Sink
        (λ s o t p. HasDone S.Shelf O.Sink each_file s o t p (words.migrate migrate_record))
        ((codes "o", three_bytes_file) ∷ []) (codes "record segments 1\n") }
    ensures migrate_by { GivenBy S.Shelf O.Sink
        (λ s o t p. HasDone S.Shelf O.Sink each_file s o t p (words.migrate migrate_record))
        ((codes "o", three_bytes_file) ∷ []) (codes "record segments 1\n") }
    ensures check { Always S.Shelf O.Sink
        (λ s o t p. EndsWithoutFiles S.Shelf O.Sink (words.check of_record) s o (unread (codes "m"))
        t p) }
    ensures sample { Never S.Shelf O.Sink
        (λ s o t p. EndsWithoutFiles S.Shelf O.Sink (words.sample 7) s o (unread (codes "m")) t p) }
{}

/// The command that the words say. Words that are refused take no file, and are refused for their reason.
pub fn command_of_the_words()
    ensures refused { Holds
        (λ X c. reads c.takes each_file ≡ Err (by (reasons.Usage usage.TooManyModules)))
        (Err usage.TooManyModules) }
    ensures sample { Holds (λ X c. (x : X) × (reads c.takes (spoiled (codes "r" ∷ [])) ≡ Ok x))
        (Ok (words.sample 7)) }
    ensures migrate { Holds (λ X c. (x : X) × (reads c.takes (spoiled (codes "r" ∷ [])) ≡ Ok x))
        (Ok (words.migrate migrate_record)) → ⊥ }
{}
