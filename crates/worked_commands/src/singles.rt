//! What `core`, `migrate` and `trace` make: one output and a line.

ghost use Rattle.std.specs.Prelude.{◌≡◌, ◌∷◌, [], List, ℕ, Ok, Err, codes};
ghost use Rattle.page_memory.specs.Contents.{Contents, at};
ghost use Rattle.vmcore_file.specs.File.{core_reading};
ghost use Rattle.vmcore_file.specs.declared.fault.CoreFault.TheVariants as faults;
ghost use Rattle.file_commands.specs.Taking.{Refusal, by, too_long};
ghost use Rattle.load_commands.specs.CoreFile.{CanWriteCore, HasWrittenCore};
ghost use Rattle.list_commands.specs.Migrate.{HasMigrated};
ghost use Rattle.command_parts.specs.Outputs.{IsFileOf, Made};
ghost use Rattle.list_commands.specs.Trace.{CanTrace, HasTraced};
ghost use Rattle.command_parts.specs.declared.reason.Reason.{Reason};
ghost use Rattle.command_parts.specs.declared.reason.Reason.TheVariants as reasons;
ghost use Rattle.worked_commands.specs.Inputs.{three_bytes_file, three_bytes_record};
ghost use Rattle.worked_commands.specs.Lists.{GivenBy, Gives};
ghost use Rattle.worked_commands.specs.Memories.{loaded, loaded_file, run_file};
ghost use Rattle.worked_commands.specs.Names.{core_memory, migrate_record, trace_memory};
ghost use Rattle.worked_commands.specs.Singles.{core_makes, migrate_makes, one_output, trace_makes};
ghost use Rattle.worked_commands.specs.Texts.{core_of_five};

use kx_edge::{Shelf, Sink};

/// A memory whose headers give a core file of five bytes, two load rows and 344 bytes of notes.
pub fn core_is_written()
    ensures made { (m : Contents) → core_reading (at m) 0x3000 ≡ Ok core_of_five
        → core_makes m
        (Ok (one_output (codes "abcde") (codes "core loads 2 notes 344 bytes 5\n"))) }
    ensures nothing_else { (m : Contents) (goods : Made)
        → core_reading (at m) 0x3000 ≡ Ok core_of_five → core_makes m (Ok goods)
        → goods ≡ one_output (codes "abcde") (codes "core loads 2 notes 344 bytes 5\n") }
    ensures not_refused { (m : Contents) → core_reading (at m) 0x3000 ≡ Ok core_of_five
        → core_makes m (Err (by (reasons.Core faults.NotHeaders))) → ⊥ }
    ensures can { (m : Contents) → core_reading (at m) 0x3000 ≡ Ok core_of_five
        → CanWriteCore 0x3000 m }
{}

/// A memory without headers there.
pub fn core_is_refused()
    ensures refused { (m : Contents) → core_reading (at m) 0x3000 ≡ Err faults.NotHeaders
        → core_makes m (Err (by (reasons.Core faults.NotHeaders))) }
    ensures other_fault { (m : Contents) → core_reading (at m) 0x3000 ≡ Err faults.NotHeaders
        → core_makes m (Err (by (reasons.Core (faults.TooMany 1025)))) → ⊥ }
    ensures other_reason { (m : Contents) → core_makes m (Err (by reasons.NotKept)) → ⊥ }
    ensures never_too_long { (m : Contents) → core_makes m
        (Err (too_long (codes "m") 9)) → ⊥ }
    ensures not_made { (m : Contents) (goods : Made)
        → core_reading (at m) 0x3000 ≡ Err faults.NotHeaders → core_makes m (Ok goods)
        → ⊥ }
    ensures cannot { (m : Contents) → core_reading (at m) 0x3000 ≡ Err faults.NotHeaders
        → CanWriteCore 0x3000 m → ⊥ }
{}

/// A record is written in the second version, which has the digest of each segment.
pub fn record_is_migrated()
    ensures made { migrate_makes
        (Ok (one_output three_bytes_file (codes "record segments 1\n"))) }
    ensures nothing_else { (goods : Made) → migrate_makes (Ok goods)
        → goods ≡ one_output three_bytes_file (codes "record segments 1\n") }
    ensures not_refused { (why : Refusal Reason) → migrate_makes (Err why) → ⊥ }
{}

/// The run of the list that moves page 12 to page 2: all of it, or its first two steps; and a run that leaves memory.
pub fn list_is_traced()
    ensures done { trace_makes 0x11002 9 loaded
        (Ok (one_output run_file (codes "done 4\n"))) }
    ensures just_done { trace_makes 0x11002 4 loaded
        (Ok (one_output run_file (codes "done 4\n"))) }
    ensures running { trace_makes 0x11002 2 loaded
        (Ok (one_output loaded_file (codes "running 2\n"))) }
    ensures off { (m : Contents) (bytes : List ℕ) → IsFileOf (at m) bytes
        → trace_makes 0x4000_0000_0002 9 m
        (Ok (one_output bytes (codes "off 400000000000 after 1\n"))) }
    ensures nothing_else { (goods : Made)
        → trace_makes 0x11002 9 loaded (Ok goods)
        → goods ≡ one_output run_file (codes "done 4\n") }
    ensures not_refused { trace_makes 0x11002 9 loaded (Err (by reasons.NotKept))
        → ⊥ }
    ensures can { CanTrace (trace_memory None) loaded }
{}

/// What stands after each of them.
pub fn singles_that_were_done<S: Shelf, O: Sink>()
    ensures core { (m : Contents) → core_reading (at m) 0x3000 ≡ Ok core_of_five
        → Gives S.Shelf O.Sink
        (λ s o t p. HasWrittenCore S.Shelf O.Sink s o t p core_memory m)
        ((codes "o", codes "abcde") ∷ []) (codes "core loads 2 notes 344 bytes 5\n") }
    ensures core_by { (m : Contents) → core_reading (at m) 0x3000 ≡ Ok core_of_five
        → GivenBy S.Shelf O.Sink
        (λ s o t p. HasWrittenCore S.Shelf O.Sink s o t p core_memory m)
        ((codes "o", codes "abcde") ∷ []) (codes "core loads 2 notes 344 bytes 5\n") }
    ensures migrate { Gives S.Shelf O.Sink
        (λ s o t p. HasMigrated S.Shelf O.Sink s o t p migrate_record three_bytes_record)
        ((codes "o", three_bytes_file) ∷ []) (codes "record segments 1\n") }
    ensures migrate_by { GivenBy S.Shelf O.Sink
        (λ s o t p. HasMigrated S.Shelf O.Sink s o t p migrate_record three_bytes_record)
        ((codes "o", three_bytes_file) ∷ []) (codes "record segments 1\n") }
    ensures trace { Gives S.Shelf O.Sink
        (λ s o t p. HasTraced S.Shelf O.Sink s o t p (trace_memory None) loaded)
        ((codes "o", run_file) ∷ []) (codes "done 4\n") }
    ensures trace_by { GivenBy S.Shelf O.Sink
        (λ s o t p. HasTraced S.Shelf O.Sink s o t p (trace_memory None) loaded)
        ((codes "o", run_file) ∷ []) (codes "done 4\n") }
{}
