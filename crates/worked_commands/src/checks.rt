//! What `check` tells: of the list that moves page 12 to page 2, for the bytes `abc`, in every memory that has it.

ghost use Rattle.std.specs.Prelude.{◌≡◌, [], Ok, Err, codes};
ghost use Rattle.kx_pages.specs.Bytes.{page_of};
ghost use Rattle.page_memory.specs.Contents.{Contents, at};
ghost use Rattle.list_checker.specs.declared.fault.Why.TheVariants.{HeadKind, Missing, WrongBytes};
ghost use Rattle.file_commands.specs.Taking.{Refusal};
ghost use Rattle.list_commands.specs.Check.{HasCheckedLoad, IsAcceptedLoad, IsFaultIn, IsInPlace, IsPlaceFault, checks};
ghost use Rattle.list_commands.specs.Dump.{lines_of};
ghost use Rattle.list_commands.specs.Records.{crash_files, list_files, load_by};
ghost use Rattle.command_parts.specs.Outputs.{Made};
ghost use Rattle.command_parts.specs.declared.reason.Reason.{Reason};
ghost use Rattle.worked_commands.specs.Lists.{GivenBy, Gives, HasList, HasSource, crash_record, plain_record, told_fault};

use kx_edge::{Shelf, Sink};

/// Page 12 has the bytes: the list is accepted, one line tells its words, link pages and pairs, and nothing else is made.
pub fn accepted_list_is_told()
    ensures accepted { (m : Contents) → HasList m → HasSource m (codes "abc")
        → IsAcceptedLoad (load_by m plain_record) }
    ensures told { (m : Contents) → HasList m → HasSource m (codes "abc")
        → checks (load_by m plain_record)
        (Ok (lines_of (codes "accepted words 4 links 1 pairs 1\n"))) }
    ensures nothing_else { (m : Contents) (goods : Made) → HasList m → HasSource m (codes "abc")
        → checks (load_by m plain_record) (Ok goods)
        → goods ≡ lines_of (codes "accepted words 4 links 1 pairs 1\n") }
    ensures not_refused { (m : Contents) (why : Refusal Reason)
        → checks (load_by m plain_record) (Err why) → ⊥ }
{}

/// Page 12 has other bytes: the source word has a fault, and its line is told.
pub fn fault_of_a_list_is_told()
    ensures fault { (m : Contents) → HasList m → HasSource m (codes "abd")
        → IsFaultIn (list_files m plain_record) (record { word = 2; why = WrongBytes }) }
    ensures not_accepted { (m : Contents) → HasList m → HasSource m (codes "abd")
        → IsAcceptedLoad (load_by m plain_record) → ⊥ }
    ensures told { (m : Contents) → HasList m → HasSource m (codes "abd")
        → checks (load_by m plain_record)
        (Ok (told_fault (record { word = 2; why = WrongBytes }) (codes "word 2: WrongBytes\n"))) }
    ensures not_told { (m : Contents) → HasList m → HasSource m (codes "abd")
        → checks (load_by m plain_record)
        (Ok (lines_of (codes "accepted words 4 links 1 pairs 1\n"))) → ⊥ }
{}

/// A crash kernel whose page 2 has the bytes lies in its place; one with other bytes, or with another head, does not.
pub fn crash_kernel_is_told()
    ensures in_place { (m : Contents) → at m 2 ≡ page_of (codes "abc")
        → IsInPlace (crash_files m (crash_record 4)) }
    ensures told { (m : Contents) → at m 2 ≡ page_of (codes "abc")
        → checks (load_by m (crash_record 4)) (Ok (lines_of (codes "accepted crash pages 1\n"))) }
    ensures other_text { (m : Contents) → at m 2 ≡ page_of (codes "abc")
        → checks (load_by m (crash_record 4))
        (Ok (lines_of (codes "accepted crash pages 2\n"))) → ⊥ }
    ensures other_bytes { (m : Contents) → at m 2 ≡ page_of (codes "abd")
        → IsPlaceFault (crash_files m (crash_record 4)) (record { word = 0; why = Missing 2 }) }
    ensures other_bytes_told { (m : Contents) → at m 2 ≡ page_of (codes "abd")
        → checks (load_by m (crash_record 4))
        (Ok (told_fault (record { word = 0; why = Missing 2 }) (codes "word 0: Missing 2000\n"))) }
    ensures other_head { (m : Contents) → IsPlaceFault (crash_files m (crash_record 0x11002))
        (record { word = 0; why = HeadKind }) }
    ensures not_refused { (m : Contents) (why : Refusal Reason)
        → checks (load_by m (crash_record 4)) (Err why) → ⊥ }
{}

/// What stands after `check`.
pub fn checks_that_were_done<S: Shelf, O: Sink>()
    ensures list { (m : Contents) → HasList m → HasSource m (codes "abc")
        → Gives S.Shelf O.Sink
        (λ s o t p. HasCheckedLoad S.Shelf O.Sink s o t p (load_by m plain_record)) []
        (codes "accepted words 4 links 1 pairs 1\n") }
    ensures list_by { (m : Contents) → HasList m → HasSource m (codes "abc")
        → GivenBy S.Shelf O.Sink
        (λ s o t p. HasCheckedLoad S.Shelf O.Sink s o t p (load_by m plain_record)) []
        (codes "accepted words 4 links 1 pairs 1\n") }
    ensures crash { (m : Contents)
        → Gives S.Shelf O.Sink
        (λ s o t p. HasCheckedLoad S.Shelf O.Sink s o t p (load_by m (crash_record 4))) []
        (codes "accepted crash pages 1\n") }
    ensures crash_by { (m : Contents) → at m 2 ≡ page_of (codes "abc")
        → GivenBy S.Shelf O.Sink
        (λ s o t p. HasCheckedLoad S.Shelf O.Sink s o t p (load_by m (crash_record 4))) []
        (codes "accepted crash pages 1\n") }
{}
