//! What `dump` makes of lists in memory: a line for each word and each segment, and nothing else.

ghost use Rattle.std.specs.Prelude.{◌≡◌, ◌∷◌, [], Ok, Err};
ghost use Rattle.page_memory.specs.Contents.{Contents, at};
ghost use Rattle.file_commands.specs.Taking.{Refusal};
ghost use Rattle.list_commands.specs.Dump.{HasDumpedLoad, dumps, lines_of};
ghost use Rattle.list_commands.specs.Records.{load_by};
ghost use Rattle.command_parts.specs.Outputs.{Made};
ghost use Rattle.command_parts.specs.declared.reason.Reason.{Reason};
ghost use Rattle.worked_commands.specs.Dumps.{crash_text, list_text, round_text};
ghost use Rattle.worked_commands.specs.Lists.{GivenBy, Gives, HasList, HasWords, crash_record, plain_record};

use kx_edge::{Shelf, Sink};

/// The list that moves page 12 to page 2, whatever page 12 has; and a link page that links to itself, whose second word
/// cannot be followed and is the last.
pub fn list_is_dumped()
    ensures told { (m : Contents) → HasList m → dumps (load_by m plain_record)
        (Ok (lines_of list_text)) }
    ensures nothing_else { (m : Contents) (goods : Made) → HasList m
        → dumps (load_by m plain_record) (Ok goods) → goods ≡ lines_of list_text }
    ensures not_refused { (m : Contents) (why : Refusal Reason)
        → dumps (load_by m plain_record) (Err why) → ⊥ }
    ensures round { (m : Contents) → HasWords (at m) 0x11000 (0x11002 ∷ [])
        → dumps (load_by m plain_record) (Ok (lines_of round_text)) }
{}

/// A crash kernel, whose list is its head alone, whatever memory has.
pub fn crash_kernel_is_dumped()
    ensures told { (m : Contents) → dumps (load_by m (crash_record 4)) (Ok (lines_of crash_text)) }
    ensures nothing_else { (m : Contents) (goods : Made)
        → dumps (load_by m (crash_record 4)) (Ok goods) → goods ≡ lines_of crash_text }
    ensures not_refused { (m : Contents) (why : Refusal Reason)
        → dumps (load_by m (crash_record 4)) (Err why) → ⊥ }
{}

/// What stands after `dump`.
pub fn dumps_that_were_done<S: Shelf, O: Sink>()
    ensures list { (m : Contents) → HasList m → Gives S.Shelf O.Sink
        (λ s o t p. HasDumpedLoad S.Shelf O.Sink s o t p (load_by m plain_record)) [] list_text }
    ensures list_by { (m : Contents) → HasList m → GivenBy S.Shelf O.Sink
        (λ s o t p. HasDumpedLoad S.Shelf O.Sink s o t p (load_by m plain_record)) [] list_text }
    ensures crash { (m : Contents) → Gives S.Shelf O.Sink
        (λ s o t p. HasDumpedLoad S.Shelf O.Sink s o t p (load_by m (crash_record 4))) []
        crash_text }
    ensures crash_by { (m : Contents) → GivenBy S.Shelf O.Sink
        (λ s o t p. HasDumpedLoad S.Shelf O.Sink s o t p (load_by m (crash_record 4))) []
        crash_text }
{}
