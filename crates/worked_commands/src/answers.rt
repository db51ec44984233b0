//! What the answers of a command say: a copy of `a` to `o`, with a second output `r` and a text.

ghost use Rattle.std.specs.Prelude.{◌≡◌, ◌∷◌, [], Some, None, codes};
ghost use Rattle.file_commands.specs.Answers.{FilesCut, FilesPut, FilesUpTo, done, memory, not_accepted, refused, unread, unsaid, unwritten, with_outputs};
ghost use Rattle.file_commands.specs.Taking.{by, too_long};
ghost use Rattle.worked_commands.specs.Answers.{MeetsByCalls, MeetsHere, MeetsOver, long_file, one_file, slate_with, shelf};
ghost use Rattle.worked_commands.specs.Shelves.{holding, two_files, with_c};

/// Outputs are put one after another: of two with one name the last counts.
pub fn outputs_in_their_order()
    ensures none { with_outputs two_files [] ≡ two_files }
    ensures last { with_outputs two_files
        ((codes "c", codes "1") ∷ (codes "a", codes "xyz") ∷ (codes "c", codes "2") ∷ [])
        ≡ with_c (codes "2") }
    ensures put { FilesPut (Some two_files) ((codes "c", codes "2") ∷ [])
        (Some (with_c (codes "2"))) }
    ensures put_nothing { FilesPut (Some two_files) [] (Some two_files) }
    ensures not_put { FilesPut (Some two_files) ((codes "c", codes "2") ∷ []) (Some two_files)
        → ⊥ }
    ensures untold { FilesPut None ((codes "c", codes "2") ∷ []) None }
    ensures no_more_told { FilesPut (Some two_files) ((codes "c", codes "2") ∷ []) None → ⊥ }
{}

/// An output that could not be put whole: those before it are whole, and those behind it are not put.
pub fn outputs_up_to_a_fault()
    ensures up_to { FilesUpTo (Some two_files) ((codes "c", codes "1") ∷ []) (codes "a")
        (codes "uv")
        (Some (holding ((codes "a", codes "u") ∷ (codes "b", codes "vw") ∷ (codes "c", codes "1")
        ∷ []))) }
    ensures cut { FilesCut (Some two_files)
        ((codes "c", codes "1") ∷ (codes "a", codes "uv") ∷ (codes "b", codes "2") ∷ [])
        (codes "a")
        (Some (holding ((codes "a", codes "u") ∷ (codes "b", codes "vw") ∷ (codes "c", codes "1")
        ∷ []))) }
    ensures cut_untold { FilesCut (Some two_files) ((codes "a", codes "uv") ∷ []) (codes "a")
        None }
    ensures no_output { FilesCut (Some two_files) ((codes "a", codes "uv") ∷ []) (codes "b")
        (Some two_files) → ⊥ }
{}

/// The copy answers over files that are told.
pub fn answers_over_told_files()
    ensures done { MeetsHere None done
        (shelf
        ((codes "a", codes "xyz") ∷ (codes "o", codes "xyz") ∷ (codes "r", codes "12") ∷ []) 6)
        (slate_with (codes "!ok\n") 8) }
    ensures not_said { MeetsHere None done
        (shelf
        ((codes "a", codes "xyz") ∷ (codes "o", codes "xyz") ∷ (codes "r", codes "12") ∷ []) 6)
        (slate_with (codes "!") 8) → ⊥ }
    ensures not_put { MeetsHere None done
        (shelf ((codes "a", codes "xyz") ∷ (codes "o", codes "xyz") ∷ []) 6)
        (slate_with (codes "!ok\n") 8) → ⊥ }
    ensures fault_is_answered { MeetsHere (Some 9) (not_accepted 9)
        (shelf
        ((codes "a", codes "xyz") ∷ (codes "o", codes "xyz") ∷ (codes "r", codes "12") ∷ []) 6)
        (slate_with (codes "!ok\n") 8) }
    ensures fault_is_not_done { MeetsHere (Some 9) done
        (shelf
        ((codes "a", codes "xyz") ∷ (codes "o", codes "xyz") ∷ (codes "r", codes "12") ∷ []) 6)
        (slate_with (codes "!ok\n") 8) → ⊥ }
    ensures unwritten { MeetsHere None (unwritten (codes "r"))
        (shelf
        ((codes "a", codes "xyz") ∷ (codes "o", codes "xyz") ∷ (codes "r", codes "1") ∷ []) 7)
        (slate_with (codes "!") 8) }
    ensures uncounted { MeetsHere None (unwritten (codes "r"))
        (shelf
        ((codes "a", codes "xyz") ∷ (codes "o", codes "xyz") ∷ (codes "r", codes "1") ∷ []) 6)
        (slate_with (codes "!") 8) → ⊥ }
    ensures unsaid { MeetsHere None unsaid
        (shelf
        ((codes "a", codes "xyz") ∷ (codes "o", codes "xyz") ∷ (codes "r", codes "12") ∷ []) 6)
        (slate_with (codes "!o") 9) }
    ensures unread { MeetsHere None (unread (codes "a")) (shelf one_file 7)
        (slate_with (codes "!") 8) }
    ensures memory { MeetsHere None memory (shelf one_file 6)
        (slate_with (codes "!") 8) }
    ensures not_refused { MeetsHere None (refused (by 7)) (shelf one_file 6)
        (slate_with (codes "!") 8) → ⊥ }
{}

/// The copy is refused: a file without bytes for the reason of the command, and one of four bytes for its length.
pub fn answers_that_refuse()
    ensures no_file { MeetsOver [] None (refused (by 7)) (shelf [] 6) (slate_with (codes "!") 8) }
    ensures other_reason { MeetsOver [] None (refused (by 8)) (shelf [] 6)
        (slate_with (codes "!") 8) → ⊥ }
    ensures too_long { MeetsOver long_file None
        (refused (too_long (codes "a") 3)) (shelf long_file 6)
        (slate_with (codes "!") 8) }
    ensures not_done { MeetsOver [] None done
        (shelf ((codes "o", []) ∷ (codes "r", codes "12") ∷ []) 6)
        (slate_with (codes "!ok\n") 8) → ⊥ }
{}

/// The copy answers by the calls that were made.
pub fn answers_by_calls()
    ensures done { MeetsByCalls None done
        (shelf
        ((codes "a", codes "xyz") ∷ (codes "o", codes "xyz") ∷ (codes "r", codes "12") ∷ []) 6)
        (slate_with (codes "!ok\n") 8) }
    ensures fault_is_answered { MeetsByCalls (Some 9) (not_accepted 9)
        (shelf
        ((codes "a", codes "xyz") ∷ (codes "o", codes "xyz") ∷ (codes "r", codes "12") ∷ []) 6)
        (slate_with (codes "!ok\n") 8) }
    ensures unwritten { MeetsByCalls None (unwritten (codes "r"))
        (shelf
        ((codes "a", codes "xyz") ∷ (codes "o", codes "xyz") ∷ (codes "r", codes "1") ∷ []) 7)
        (slate_with (codes "!") 8) }
    ensures unsaid { MeetsByCalls None unsaid
        (shelf
        ((codes "a", codes "xyz") ∷ (codes "o", codes "xyz") ∷ (codes "r", codes "12") ∷ []) 6)
        (slate_with (codes "!o") 9) }
    ensures unread { MeetsByCalls None (unread (codes "a")) (shelf one_file 7)
        (slate_with (codes "!") 8) }
    ensures unread_of_another_name { MeetsByCalls None (unread (codes "o"))
        (shelf one_file 7) (slate_with (codes "!") 8) → ⊥ }
    ensures memory { MeetsByCalls None memory (shelf one_file 6)
        (slate_with (codes "!") 8) }
    ensures not_refused { MeetsByCalls None (refused (by 7))
        (shelf one_file 6) (slate_with (codes "!") 8) → ⊥ }
{}
