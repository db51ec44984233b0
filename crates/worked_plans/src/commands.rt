//! The command of a kernel, and what it tells a crash kernel.

ghost use Rattle.std.specs.Prelude.{◌≡◌, [], Some, None, codes};
ghost use Rattle.kexec_plan.specs.Command.{command_of, with_space, headers_word, told_command};

/// A space stands before the word that tells where the crash headers lie, but not in an empty command. The word counts
/// in KiB.
pub fn command_of_a_crash_kernel()
    ensures none { command_of None ≡ [] }
    ensures some { command_of (Some (codes "quiet")) ≡ codes "quiet" }
    ensures space { with_space (codes "quiet") ≡ codes "quiet " }
    ensures no_space { with_space [] ≡ [] }
    ensures word { headers_word 0x5ff_f000 ≡ codes "elfcorehdr=98300K" }
    ensures rounded_down { headers_word 0xfff ≡ codes "elfcorehdr=3K" }
    ensures told { told_command (codes "quiet") 0x5ff_f000 ≡ codes "quiet elfcorehdr=98300K" }
    ensures alone { told_command [] 0x400 ≡ codes "elfcorehdr=1K" }
{}
