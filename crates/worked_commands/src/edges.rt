//! Files by name, and what is said: what is read, and what a put or a say leaves.

ghost use Rattle.std.specs.Prelude.{◌≡◌, ◌-◌, ◌^◌, ◌∷◌, [], List, ℕ, Some, None, codes};
ghost use Rattle.kx_edge.specs.Edge.{Files, PutFile, PutPrefix, Rose, Said, SaidPrefix, read_of};
ghost use Rattle.worked_commands.specs.Shelves.{holding, two_files, with_c};

/// A take reads at most so many bytes, and of a name that is not held none.
pub fn bytes_of_a_file()
    ensures whole { read_of two_files (codes "a") 4 ≡ codes "xyz" }
    ensures to_the_last { read_of two_files (codes "a") 3 ≡ codes "xyz" }
    ensures cut { read_of two_files (codes "a") 2 ≡ codes "xy" }
    ensures other_file { read_of two_files (codes "b") 2 ≡ codes "vw" }
    ensures no_file { read_of two_files (codes "c") 4 ≡ [] }
    ensures longer_name { read_of two_files (codes "aa") 4 ≡ [] }
    ensures no_name { read_of two_files [] 4 ≡ [] }
{}

/// A count rose where it is greater, or stands at its last value.
pub fn counts_of_faults()
    ensures one_more { Rose 3 4 }
    ensures more { Rose 3 9 }
    ensures same { Rose 3 3 → ⊥ }
    ensures fewer { Rose 3 2 → ⊥ }
    ensures last { Rose (2 ^ 64 - 1) (2 ^ 64 - 1) }
    ensures before_the_last { Rose (2 ^ 64 - 2) (2 ^ 64 - 2) → ⊥ }
{}

/// A put makes one file these bytes, and leaves the others. Files that were told go on being told, and no others.
pub fn file_that_is_put()
    ensures new { PutFile (Some two_files) (codes "c") (codes "uv") (Some (with_c (codes "uv"))) }
    ensures replaced { PutFile (Some two_files) (codes "a") (codes "uv")
        (Some (holding ((codes "b", codes "vw") ∷ (codes "a", codes "uv") ∷ []))) }
    ensures untold { PutFile None (codes "c") (codes "uv") None }
    ensures no_more_told { PutFile (Some two_files) (codes "c") (codes "uv") None → ⊥ }
    ensures other_bytes { PutFile (Some two_files) (codes "c") (codes "uv")
        (Some (with_c (codes "vu"))) → ⊥ }
    ensures other_file_lost { PutFile (Some two_files) (codes "c") (codes "uv")
        (Some (holding ((codes "a", codes "xyz") ∷ (codes "c", codes "uv") ∷ []))) → ⊥ }
    ensures never_told { (now : Files) → PutFile None (codes "c") (codes "uv") (Some now) → ⊥ }
{}

/// A put that fails leaves a prefix of the bytes: none, some or all of them.
pub fn file_that_is_cut()
    ensures none { PutPrefix (Some two_files) (codes "c") (codes "uv") (Some (with_c [])) }
    ensures some { PutPrefix (Some two_files) (codes "c") (codes "uv")
        (Some (with_c (codes "u"))) }
    ensures all { PutPrefix (Some two_files) (codes "c") (codes "uv")
        (Some (with_c (codes "uv"))) }
    ensures untold { PutPrefix (Some two_files) (codes "c") (codes "uv") None }
    ensures no_prefix { PutPrefix (Some two_files) (codes "c") (codes "uv")
        (Some (with_c (codes "v"))) → ⊥ }
    ensures never_told { (now : Files) → PutPrefix None (codes "c") (codes "uv") (Some now) → ⊥ }
{}

/// A say appends. What was told goes on being told, and nothing else.
pub fn bytes_that_are_said()
    ensures appended { Said (Some (codes "ab")) (codes "cd") (Some (codes "abcd")) }
    ensures untold { Said None (codes "cd") None }
    ensures no_more_told { Said (Some (codes "ab")) (codes "cd") None → ⊥ }
    ensures in_front { Said (Some (codes "ab")) (codes "cd") (Some (codes "cdab")) → ⊥ }
    ensures never_told { (now : List ℕ) → Said None (codes "cd") (Some now) → ⊥ }
    ensures prefix { SaidPrefix (Some (codes "ab")) (codes "cd") (Some (codes "abc")) }
    ensures no_byte { SaidPrefix (Some (codes "ab")) (codes "cd") (Some (codes "ab")) }
    ensures last_byte { SaidPrefix (Some (codes "ab")) (codes "cd") (Some (codes "abd")) → ⊥ }
    ensures prefix_untold { SaidPrefix (Some (codes "ab")) (codes "cd") None }
{}
