//! What `exec` makes: of the list that moves page 12 to page 2, for the bytes `abc`, and of a crash kernel of these bytes.

ghost use Rattle.std.specs.Prelude.{◌≡◌, ◌∷◌, [], List, ℕ, true, false, None, Ok, Err, codes};
ghost use Rattle.kx_pages.specs.Bytes.{page_of};
ghost use Rattle.page_memory.specs.Contents.{Contents, at};
ghost use Rattle.list_checker.specs.declared.fault.Why.TheVariants.{Missing, WrongBytes};
ghost use Rattle.file_commands.specs.Taking.{by, too_long};
ghost use Rattle.list_commands.specs.Exec.{CanExec, HasExecutedLoad};
ghost use Rattle.list_commands.specs.Records.{load_by};
ghost use Rattle.command_parts.specs.Outputs.{IsFileOf, Made};
ghost use Rattle.command_parts.specs.declared.reason.Reason.TheVariants as reasons;
ghost use Rattle.worked_commands.specs.Execs.{crash_text, exec_makes, ran_text, run_goods};
ghost use Rattle.worked_commands.specs.Lists.{Gives, HasList, HasSource, crash_record, plain_record, told_fault};
ghost use Rattle.worked_commands.specs.Memories.{loaded, run_file};
ghost use Rattle.worked_commands.specs.Names.{exec_record};

use kx_edge::{Shelf, Sink};

/// The list is run, which leaves `abc` in page 2 too: the output is the file of that memory, and nothing else is made.
pub fn plain_list_is_run()
    ensures made { exec_makes false (load_by loaded plain_record) (Ok run_goods) }
    ensures nothing_else { (goods : Made)
        → exec_makes false (load_by loaded plain_record) (Ok goods) → goods ≡ run_goods }
    ensures can { CanExec (load_by loaded plain_record) false }
{}

/// A plain list is not run twice, whatever its memory holds; and this is refused of nothing else.
pub fn plain_list_is_not_run_twice()
    ensures refused { (m : Contents) → exec_makes true (load_by m plain_record)
        (Err (by reasons.NotKept)) }
    ensures not_made { (m : Contents) (goods : Made)
        → exec_makes true (load_by m plain_record) (Ok goods) → ⊥ }
    ensures not_of_one_run { (m : Contents) → exec_makes false (load_by m plain_record)
        (Err (by reasons.NotKept)) → ⊥ }
    ensures not_heavy { (m : Contents) → exec_makes true (load_by m plain_record)
        (Err (by (reasons.Heavy 131073))) → ⊥ }
    ensures never_too_long { (m : Contents) → exec_makes false (load_by m plain_record)
        (Err (too_long (codes "x") 9)) → ⊥ }
    ensures cannot { (m : Contents) → CanExec (load_by m plain_record) true → ⊥ }
{}

/// A list with a fault is not run: the fault's line is all that is made.
pub fn faulty_list_is_not_run()
    ensures told { (m : Contents) → HasList m → HasSource m (codes "abd")
        → exec_makes false (load_by m plain_record)
        (Ok (told_fault (record { word = 2; why = WrongBytes }) (codes "word 2: WrongBytes\n"))) }
    ensures not_run { (m : Contents) → HasList m → HasSource m (codes "abd")
        → exec_makes false (load_by m plain_record) (Ok run_goods) → ⊥ }
    ensures cannot { (m : Contents) → HasList m → HasSource m (codes "abd")
        → CanExec (load_by m plain_record) false → ⊥ }
{}

/// A crash kernel in its place is run, which takes one step and changes nothing; it is not run twice, and not run where it
/// has other bytes.
pub fn crash_kernel_is_run()
    ensures made { (m : Contents) (bytes : List ℕ) → at m 2 ≡ page_of (codes "abc")
        → IsFileOf (at m) bytes → exec_makes false (load_by m (crash_record 4))
        (Ok (record {
          outputs = (codes "x", bytes) ∷ [];
          text = crash_text;
          fault = None;
        })) }
    ensures twice { (m : Contents) → exec_makes true (load_by m (crash_record 4))
        (Err (by reasons.NotKept)) }
    ensures not_made_twice { (m : Contents) (goods : Made)
        → exec_makes true (load_by m (crash_record 4)) (Ok goods) → ⊥ }
    ensures other_bytes { (m : Contents) → at m 2 ≡ page_of (codes "abd")
        → exec_makes false (load_by m (crash_record 4))
        (Ok (told_fault (record { word = 0; why = Missing 2 }) (codes "word 0: Missing 2000\n"))) }
    ensures cannot_twice { (m : Contents) → CanExec (load_by m (crash_record 4)) true → ⊥ }
    ensures never_too_long { (m : Contents) → exec_makes false (load_by m (crash_record 4))
        (Err (too_long (codes "x") 9)) → ⊥ }
{}

/// What stands after `exec`.
pub fn execs_that_were_done<S: Shelf, O: Sink>()
    ensures list { Gives S.Shelf O.Sink
        (λ s o t p. HasExecutedLoad S.Shelf O.Sink s o t p (exec_record false)
        (load_by loaded plain_record)) ((codes "x", run_file) ∷ []) ran_text }
    ensures crash { (m : Contents) (bytes : List ℕ) → IsFileOf (at m) bytes
        → Gives S.Shelf O.Sink
        (λ s o t p. HasExecutedLoad S.Shelf O.Sink s o t p (exec_record false)
        (load_by m (crash_record 4))) ((codes "x", bytes) ∷ []) crash_text }
{}
