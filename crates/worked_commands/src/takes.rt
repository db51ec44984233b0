//! What commands take of a shelf: files within their limits, one after another.

ghost use Rattle.std.specs.Prelude.{◌≡◌, ◌+◌, ◌∷◌, [], List, ℕ, Ok, Err, Some, None, codes};
ghost use Rattle.file_commands.specs.Files.{all_files, check_length, from_reader, more_files, optional_file, whole_file};
ghost use Rattle.file_commands.specs.Taking.{FailedAt, FailsFile, GivesFile, Same, Took, WantedAt, WantsFile, by, ok, refuse, too_long};
ghost use Rattle.worked_commands.specs.Shelves.{desk};
ghost use Rattle.worked_commands.specs.Takes.{a_then_b, a_then_rest, calm, failed_once, no_take, read_as, refused_as, untold};

/// A whole file has at most as many bytes as its limit.
pub fn file_within_its_limit()
    ensures exactly { read_as (whole_file 3 (codes "a")) (codes "xyz") }
    ensures one_more { refused_as (whole_file 2 (codes "a")) (too_long (codes "a") 2) }
    ensures no_file { read_as (whole_file 3 (codes "c")) [] }
    ensures no_byte { read_as (whole_file 0 (codes "c")) [] }
    ensures length { check_length {R = ℕ} 2 (codes "a") (codes "xy") ≡ ok (codes "xy") }
    ensures past { check_length {R = ℕ} 1 (codes "a") (codes "xy")
        ≡ refuse (too_long (codes "a") 1) }
{}

/// A file that may be named.
pub fn file_that_may_be_named()
    ensures unnamed { read_as (optional_file (whole_file 3) None) None }
    ensures named { read_as (optional_file (whole_file 3) (Some (codes "a"))) (Some (codes "xyz")) }
    ensures too_long { refused_as (optional_file (whole_file 1) (Some (codes "b")))
        (too_long (codes "b") 1) }
{}

/// What a reader makes of bytes; its fault is a reason of the command's own.
pub fn bytes_that_are_read()
    ensures read { read_as (from_reader {F = ℕ} (λ n. n + 10) (Ok (codes "q"))) (codes "q") }
    ensures refused { refused_as (from_reader {X = List ℕ} (λ n. n + 10) (Err 7)) (by 17) }
{}

/// Several files share a budget: each may have what those before it left.
pub fn files_within_a_budget()
    ensures none { read_as (all_files 0 []) [] }
    ensures exactly { read_as (all_files 5 (codes "a" ∷ codes "b" ∷ []))
        ((codes "a", codes "xyz") ∷ (codes "b", codes "vw") ∷ []) }
    ensures second_is_too_long { refused_as (all_files 4 (codes "a" ∷ codes "b" ∷ []))
        (too_long (codes "b") 1) }
    ensures first_is_too_long { refused_as (all_files 2 (codes "a" ∷ codes "b" ∷ []))
        (too_long (codes "a") 2) }
    ensures in_their_order { read_as (all_files 5 (codes "b" ∷ codes "a" ∷ []))
        ((codes "b", codes "vw") ∷ (codes "a", codes "xyz") ∷ []) }
    ensures one_name_twice { refused_as (all_files 5 (codes "a" ∷ codes "a" ∷ []))
        (too_long (codes "a") 2) }
    ensures behind_others { read_as (more_files 2 (codes "b" ∷ []) ((codes "a", []) ∷ []))
        ((codes "a", []) ∷ (codes "b", codes "vw") ∷ []) }
{}

/// Of two faults the first is answered, and what is taken next can hang on what was taken before.
pub fn takes_one_after_another()
    ensures both { read_as (a_then_b 3 2) (codes "xyz", codes "vw") }
    ensures first_fault { refused_as (a_then_b 2 1) (too_long (codes "a") 2) }
    ensures second_fault { refused_as (a_then_b 3 1) (too_long (codes "b") 1) }
    ensures by_the_first { refused_as a_then_rest (too_long (codes "b") 1) }
{}

/// A take that was made gave the file's bytes where files are told, and left the shelf as it was.
pub fn takes_that_were_made()
    ensures gave { GivesFile desk calm (codes "a") 4 (codes "xyz") calm }
    ensures gave_others { GivesFile desk calm (codes "a") 4 (codes "xyy") calm → ⊥ }
    ensures gave_whatever { GivesFile desk untold (codes "a") 4 (codes "xyy") untold }
    ensures same { Same desk calm calm }
    ensures counted { Same desk calm failed_once → ⊥ }
    ensures both { Took desk (a_then_b 3 2) calm (Ok (codes "xyz", codes "vw")) calm }
    ensures swapped { Took desk (a_then_b 3 2) calm (Ok (codes "vw", codes "xyz")) calm → ⊥ }
    ensures refused { Took desk (a_then_b 3 1) calm (Err (too_long (codes "b") 1)) calm }
{}

/// A take that failed is one of those that the command makes, and its shelf counts it.
pub fn takes_that_failed()
    ensures failed { FailsFile desk calm (codes "a") failed_once }
    ensures uncounted { FailsFile desk calm (codes "a") calm → ⊥ }
    ensures at_the_first { FailedAt desk (a_then_b 3 2) calm (codes "a") failed_once }
    ensures at_the_second { FailedAt desk (a_then_b 3 2) calm (codes "b") failed_once }
    ensures at_another { FailedAt desk (a_then_b 3 2) calm (codes "c") failed_once → ⊥ }
    ensures past_a_refusal { FailedAt desk (a_then_b 2 2) calm (codes "b") failed_once → ⊥ }
    ensures of_no_take { FailedAt desk no_take calm (codes "a") failed_once → ⊥ }
{}

/// Memory may be wanting before the first take, at a take, or behind the last one, and the shelf counts no fault.
pub fn takes_that_wanted_memory()
    ensures wanted { WantsFile desk calm (codes "a") calm }
    ensures counted { WantsFile desk calm (codes "a") failed_once → ⊥ }
    ensures of_two_takes { WantedAt desk (a_then_b 3 2) calm calm }
    ensures of_no_take { WantedAt desk no_take calm calm }
    ensures never_counted { WantedAt desk (a_then_b 3 2) calm failed_once → ⊥ }
{}
