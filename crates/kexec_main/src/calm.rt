//! The top call over files in memory.

ghost use Rattle.std.specs.Prelude.{◌≡◌, ◌⊎◌, ℕ, List, map, string_bytes, true, Ok};
ghost use Rattle.kx_edge.specs.Edge.{Rose};
ghost use Rattle.file_commands.specs.Answers.{Meets, MeetsTold, done, memory, refused, unread, unsaid, unwritten};
ghost use Rattle.file_commands.specs.Taking.{Refusal};
ghost use Rattle.kexec_words.specs.Meaning.{command_of};
ghost use Rattle.kexec_words.specs.Values.{CommandValue};
ghost use Rattle.command_parts.specs.Statuses.{answer_of};
ghost use Rattle.kexec_main.specs.Call.{EndsWithoutFiles, HasDone, HasRefusal, IsInOrder};
ghost use Rattle.kexec_main.specs.Commands.{Holds};
ghost use Rattle.load_commands.specs.ByRules.{HasLaid};
ghost use Rattle.command_parts.specs.declared.reason.Reason.{Reason};

use crate::run::kexec;
use command_parts::Status;
use kx_edge::{CalmShelf, MemorySink, Shelf, Sink};
use std::alloc::Global;

/// The top call over files in memory, on a shelf that fails only at a put outside its room, and a text in memory: for callers
/// who have no devices. This project's own.
pub fn kexec_in_memory(
    alloc: Global,
    words: &[String],
    shelf: &mut CalmShelf,
    out: &mut MemorySink,
) -> Status
    // Each answer has its cause: the takes that were made; what was made of them; and the puts and the say that
    // followed, each once.
    ensures meets { Holds
        (λ X c. Meets ⟦<CalmShelf as Shelf>⟧ ⟦<MemorySink as Sink>⟧ c shelf.old out.old
        (answer_of result) shelf.new out.new) (command_of (map string_bytes words.now)) }

    // Over files that the shelf tells it is so by what is read of them.
    ensures told { shelf.old.is_told ≡ true → Holds
        (λ X c. MeetsTold ⟦<CalmShelf as Shelf>⟧ ⟦<MemorySink as Sink>⟧ c shelf.old.held shelf.old
        out.old (answer_of result) shelf.new out.new) (command_of (map string_bytes words.now)) }

    // What stands after each command that answered Done.
    ensures done { (c : CommandValue) → command_of (map string_bytes words.now) ≡ Ok c
        → answer_of result ≡ done → shelf.old.is_told ≡ true
        → HasDone ⟦<CalmShelf as Shelf>⟧ ⟦<MemorySink as Sink>⟧ shelf.old.held shelf.old out.old
        shelf.new out.new c }

    // The load of a `boot` or a `load` that answered Done is laid by the rules of taking pages and laying a list.
    ensures laid { (c : CommandValue) → command_of (map string_bytes words.now) ≡ Ok c
        → answer_of result ≡ done → shelf.old.is_told ≡ true
        → HasLaid ⟦<CalmShelf as Shelf>⟧ ⟦<MemorySink as Sink>⟧ shelf.old.held shelf.old out.old
        shelf.new out.new c }

    // A command that takes no file, and that nothing refuses, is done, its files told or not, unless an output has no room,
    // its text cannot be said, or memory is wanted.
    ensures without_files { (c : CommandValue) → command_of (map string_bytes words.now) ≡ Ok c
        → EndsWithoutFiles ⟦<CalmShelf as Shelf>⟧ ⟦<MemorySink as Sink>⟧ c shelf.old out.old
        (answer_of result) shelf.new out.new }

    // A command that is in order over the files that the shelf tells is done where the shelf has room for its outputs and the
    // sink takes its text, or memory is wanted.
    ensures complete { (c : CommandValue) → command_of (map string_bytes words.now) ≡ Ok c
        → shelf.old.is_told ≡ true → IsInOrder c shelf.old.held
        → (Rose shelf.old.faults shelf.new.faults → ⊥)
        → (Rose out.old.faults out.new.faults → ⊥)
        → (answer_of result ≡ done) ⊎ (answer_of result ≡ memory) }

    // And only what is in order is Done.
    ensures in_order { (c : CommandValue) → command_of (map string_bytes words.now) ≡ Ok c
        → answer_of result ≡ done → shelf.old.is_told ≡ true → IsInOrder c shelf.old.held }

    // Files that are not read, and what is refused of those that are, are refused for that reason, or memory is wanted,
    // where neither count of faults has risen.
    ensures refused { (c : CommandValue) → command_of (map string_bytes words.now) ≡ Ok c
        → shelf.old.is_told ≡ true → (why : Refusal Reason) → HasRefusal c shelf.old.held why
        → (Rose shelf.old.faults shelf.new.faults → ⊥)
        → (Rose out.old.faults out.new.faults → ⊥)
        → (answer_of result ≡ refused why) ⊎ (answer_of result ≡ memory) }

    // No file is ever told as one that could not be read. One is told as unwritten only where the count of the shelf's faults
    // rose, and the text as unsaid only where the count of the sink's faults rose.
    ensures read { (name : List ℕ) → answer_of result ≡ unread name → ⊥ }
    ensures written { (name : List ℕ) → answer_of result ≡ unwritten name
        → Rose shelf.old.faults shelf.new.faults }
    ensures unsaid { answer_of result ≡ unsaid → Rose out.old.faults out.new.faults }
{
    kexec(alloc, words, shelf, out)
}
