//! What is promised of a command, and the one that words say: the copy of `a`, and a command that takes no file.

ghost use Rattle.std.specs.Prelude.{◌≡◌, ◌∷◌, [], ℕ, Ok, Err, codes};
ghost use Rattle.file_commands.specs.Answers.{done, unread, unwritten};
ghost use Rattle.file_commands.specs.Entry.{EndsAlone, IsDone, IsReady, IsRefused, NeedsNoFiles, always, refusal};
ghost use Rattle.file_commands.specs.Taking.{by, reads, too_long};
ghost use Rattle.worked_commands.specs.Answers.{HoldsHere, copy_entry, long_file, one_file, slate_with, shelf, write_entry};
ghost use Rattle.worked_commands.specs.Shelves.{desk, holding, slate};

/// The copy is in order over a file of one to three bytes, and refused over others.
pub fn files_in_order()
    ensures ready { IsReady copy_entry (holding one_file) }
    ensures no_file { IsReady copy_entry (holding []) → ⊥ }
    ensures refused { IsRefused copy_entry (holding []) (by 7) }
    ensures other_reason { IsRefused copy_entry (holding []) (by 8) → ⊥ }
    ensures too_long { IsRefused copy_entry (holding long_file)
        (too_long (codes "a") 3) }
    ensures not_ready { IsReady copy_entry (holding long_file) → ⊥ }
    ensures not_refused { IsRefused copy_entry (holding one_file) (by 7) → ⊥ }
{}

/// The copy was done over the file `a`.
pub fn copy_that_was_done()
    ensures done { IsDone desk slate copy_entry (holding one_file) (shelf one_file 6)
        (slate_with (codes "!") 8)
        (shelf
        ((codes "a", codes "xyz") ∷ (codes "o", codes "xyz") ∷ (codes "r", codes "12") ∷ []) 6)
        (slate_with (codes "!ok\n") 8) }
    ensures other_bytes { IsDone desk slate copy_entry (holding one_file) (shelf one_file 6)
        (slate_with (codes "!") 8)
        (shelf
        ((codes "a", codes "xyz") ∷ (codes "o", codes "xyy") ∷ (codes "r", codes "12") ∷ []) 6)
        (slate_with (codes "!ok\n") 8) → ⊥ }
{}

/// A command that takes no file ends by what it makes.
pub fn command_without_files()
    ensures done { EndsAlone desk slate write_entry 0x41 (shelf one_file 6) (slate_with [] 8) done
        (shelf ((codes "a", codes "xyz") ∷ (codes "o", codes "A") ∷ []) 6) (slate_with [] 8) }
    ensures not_put { EndsAlone desk slate write_entry 0x41 (shelf one_file 6) (slate_with [] 8)
        done (shelf one_file 6) (slate_with [] 8) → ⊥ }
    ensures unwritten { EndsAlone desk slate write_entry 0x41 (shelf one_file 6) (slate_with [] 8)
        (unwritten (codes "o"))
        (shelf ((codes "a", codes "xyz") ∷ (codes "o", codes "A") ∷ []) 7) (slate_with [] 8) }
    ensures other_name { EndsAlone desk slate write_entry 0x41 (shelf one_file 6) (slate_with [] 8)
        (unwritten (codes "a")) (shelf one_file 7) (slate_with [] 8) → ⊥ }
    ensures unread { EndsAlone desk slate write_entry 0x41 (shelf one_file 6) (slate_with [] 8)
        (unread (codes "a")) (shelf one_file 7) (slate_with [] 8) → ⊥ }
    ensures needs_none { NeedsNoFiles desk slate write_entry (shelf one_file 6) (slate_with [] 8)
        done
        (shelf ((codes "a", codes "xyz") ∷ (codes "o", codes "A") ∷ []) 6) (slate_with [] 8) }
    ensures needs_none_not_put { NeedsNoFiles desk slate write_entry (shelf one_file 6)
        (slate_with [] 8) done (shelf one_file 6) (slate_with [] 8) → ⊥ }
    ensures takes_a_file { NeedsNoFiles desk slate copy_entry (shelf one_file 6) (slate_with [] 8)
        (unread (codes "a")) (shelf one_file 7) (slate_with [] 8) }
{}

/// The command that words say, told by its takes: the copy refuses four bytes, and words that are refused are a command that
/// refuses before any file is taken.
pub fn command_of_words()
    ensures copy { HoldsHere
        (λ X c. reads c.takes (holding long_file) ≡ Err (too_long (codes "a") 3)) (Ok 0) }
    ensures no_copy { HoldsHere
        (λ X c. reads c.takes (holding long_file) ≡ Err (too_long (codes "a") 3)) (Ok 1) → ⊥ }
    ensures refused { HoldsHere (λ X c. reads c.takes (holding long_file) ≡ Err (by 105)) (Err 5) }
    ensures refusal { reads (refusal {F = ℕ} {R = ℕ} 5).takes (holding one_file) ≡ Err (by 5) }
    ensures makes_nothing { (refusal {F = ℕ} {R = ℕ} 5).makes tt (Err (by 5)) → ⊥ }
    ensures always { always {X = ℕ} 3 }
{}
