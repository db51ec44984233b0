//! The files that `load` put, through the other commands: `check`, `dump`, `exec` and `trace` of the kernel `abc`.

ghost use Rattle.std.specs.Prelude.{◌∷◌, [], false, true, None, codes};
ghost use Rattle.file_commands.specs.Taking.{by};
ghost use Rattle.kexec_words.specs.Values as words;
ghost use Rattle.kexec_main.specs.Call.{HasDone, HasRefusal, IsInOrder};
ghost use Rattle.command_parts.specs.declared.reason.Reason.TheVariants as reasons;
ghost use Rattle.worked_commands.specs.Dumps.{list_text};
ghost use Rattle.worked_commands.specs.Firsts.{loaded_files};
ghost use Rattle.worked_commands.specs.Lists.{GivenBy, Gives};
ghost use Rattle.worked_commands.specs.Loads.{boot_text};
ghost use Rattle.worked_commands.specs.Memories.{run_file};
ghost use Rattle.worked_commands.specs.Names.{exec_record, of_record, trace_memory};

use kx_edge::{Shelf, Sink};

/// The load is in order for each of them, but not for two runs, since it is plain.
pub fn load_is_in_order()
    ensures check { IsInOrder (words.check of_record) loaded_files }
    ensures dump { IsInOrder (words.dump of_record) loaded_files }
    ensures exec { IsInOrder (words.exec (exec_record false)) loaded_files }
    ensures trace { IsInOrder (words.trace (trace_memory None)) loaded_files }
    ensures exec_twice { IsInOrder (words.exec (exec_record true)) loaded_files → ⊥ }
    ensures refused_twice { HasRefusal (words.exec (exec_record true)) loaded_files
        (by reasons.NotKept) }
{}

/// What stands after each of them: the list is told, its words, its run, and the run step by step.
pub fn load_is_used<S: Shelf, O: Sink>()
    ensures check { Gives S.Shelf O.Sink
        (λ s o t p. HasDone S.Shelf O.Sink loaded_files s o t p (words.check of_record)) []
        (codes "accepted words 4 links 1 pairs 1\n") }
    ensures dump { Gives S.Shelf O.Sink
        (λ s o t p. HasDone S.Shelf O.Sink loaded_files s o t p (words.dump of_record)) []
        list_text }
    ensures exec { Gives S.Shelf O.Sink
        (λ s o t p. HasDone S.Shelf O.Sink loaded_files s o t p (words.exec (exec_record false)))
        ((codes "x", run_file) ∷ []) boot_text }
    ensures trace { Gives S.Shelf O.Sink
        (λ s o t p. HasDone S.Shelf O.Sink loaded_files s o t p (words.trace (trace_memory None)))
        ((codes "o", run_file) ∷ []) (codes "done 4\n") }
    ensures check_by { GivenBy S.Shelf O.Sink
        (λ s o t p. HasDone S.Shelf O.Sink loaded_files s o t p (words.check of_record)) []
        (codes "accepted words 4 links 1 pairs 1\n") }
    ensures trace_by { GivenBy S.Shelf O.Sink
        (λ s o t p. HasDone S.Shelf O.Sink loaded_files s o t p (words.trace (trace_memory None)))
        ((codes "o", run_file) ∷ []) (codes "done 4\n") }
{}
