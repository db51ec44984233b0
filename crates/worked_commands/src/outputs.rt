//! The one file of a memory, and what runs of a list leave in memory.

ghost use Rattle.std.specs.Prelude.{◌≡◌, ◌∷◌, [], ℕ, List, Some, None, codes, length};
ghost use Rattle.kx_pages.specs.Bytes.{page_of};
ghost use Rattle.page_memory.specs.Contents.{Contents, IsMemory, at};
ghost use Rattle.page_memory.specs.File.{file, stored_pages};
ghost use Rattle.page_memory.specs.Memory.{put};
ghost use Rattle.kexec_words.specs.declared.commands.Runs.TheVariants.{Once, Twice};
ghost use Rattle.command_parts.specs.Outputs.{IsFileOf};
ghost use Rattle.command_parts.specs.Runs.{Arrives, EndsAgain, Leaves, memory_after};
ghost use Rattle.worked_commands.specs.Drawn.{found};
ghost use Rattle.worked_commands.specs.Memories.{loaded, loaded_file, run_file};
ghost use Rattle.worked_commands.specs.Runs.{done_alone, kept_over};

/// A memory has one file, which is not that of another memory. It has one where 131,072 of its pages are not all zeros, and
/// none with a page more.
pub fn files_of_memories()
    ensures right { IsFileOf (at loaded) loaded_file }
    ensures other_memory { IsFileOf (at loaded) run_file → ⊥ }
    ensures most_pages { (m : Contents) → IsMemory m → length (stored_pages m) ≡ 131072
        → IsFileOf (at m) (file m) }
    ensures a_page_more { (m : Contents) (bytes : List ℕ) → length (stored_pages m) ≡ 131073
        → IsFileOf (at m) bytes → ⊥ }
{}

/// The kernel `abc` has arrived where page 2 has it. A plain run changes no other page, and two runs change the swap page
/// alone.
pub fn what_runs_leave()
    ensures arrived { (m : Contents) → Arrives (kept_over m) (λ p. page_of (codes "abc")) }
    ensures not_arrived { (m : Contents) → Arrives (kept_over m) (λ p. page_of (codes "abd")) → ⊥ }
    ensures once { (m : Contents)
        → Leaves (Some Once) (kept_over m) (λ p. page_of (codes "abc")) }
    ensures plain_run { (m : Contents) → at m 3 ≡ []
        → Leaves None (kept_over m) (λ p. page_of (codes "abc")) → ⊥ }
    ensures swap_page { (m : Contents) → Leaves (Some Twice) (kept_over m) (put (at m) 0x11 []) }
    ensures other_page { (m : Contents) → at m 3 ≡ []
        → Leaves (Some Twice) (kept_over m) (put (at m) 3 (1 ∷ [])) → ⊥ }
{}

/// After the four steps of its list the machine has moved page 12 to page 2. The done word alone ends each run after
/// one step.
pub fn steps_of_runs()
    ensures moved { memory_after found.load 4 2 ≡ page_of (codes "abc") }
    ensures again { EndsAgain (Some Twice) (done_alone 1) }
    ensures not_after_two { EndsAgain (Some Twice) (done_alone 2) → ⊥ }
{}
