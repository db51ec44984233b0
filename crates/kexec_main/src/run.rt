//! The top call.

ghost use Rattle.std.specs.Prelude.{◌≡◌, ◌⊎◌, ℕ, List, map, string_bytes, IfSome, Ok};
ghost use Rattle.kx_edge.specs.Edge.{Rose};
ghost use Rattle.file_commands.specs.Answers.{Meets, MeetsTold, done, memory, refused, unread, unsaid, unwritten};
ghost use Rattle.file_commands.specs.Taking.{Refusal};
ghost use Rattle.file_commands.specs.inner.Calls.{call_answer};
ghost use Rattle.kexec_words.specs.inner.Limits.{IsWithinLimits};
ghost use Rattle.kexec_words.specs.Meaning.{command_of};
ghost use Rattle.kexec_words.specs.Values.{CommandValue};
ghost use Rattle.kexec_words.specs.inner.Values.{command_value};
ghost use Rattle.command_parts.specs.Statuses.{answer_of};
ghost use Rattle.kexec_main.specs.Call.{EndsWithoutFiles, HasDone, HasRefusal, IsInOrder};
ghost use Rattle.kexec_main.specs.Commands.{Holds};
ghost use Rattle.load_commands.specs.ByRules.{HasLaid};
ghost use Rattle.command_parts.specs.declared.reason.Reason.{Reason};

use command_parts::{Reason, Status};
use file_commands::Stop;
use kexec_words::{Command, WordsFault, read};
use kx_edge::{Shelf, Sink};
use list_checker::ListFault;
use list_commands::{run_check, run_dump, run_exec, run_migrate, run_trace};
use load_commands::{
    run_boot, run_boot_resident, run_core, run_drill, run_load, run_load_panic, run_sample,
};
use std::alloc::Global;

// Runs the command.
#[tactic(auto, unfolding(file_commands::specs::Taking::Took))]
fn run_command<S: Shelf, O: Sink>(
    alloc: Global,
    command: Command,
    shelf: &mut S,
    out: &mut O,
) -> Result<(), Stop<ListFault, Reason>>
    requires { IsWithinLimits (command_value command) }
    ensures { Holds
        (λ X c. Meets S.Shelf O.Sink c shelf.old out.old (call_answer result) shelf.new out.new)
        (Ok (command_value command)) }
{
    match command {
        Command::Boot(words) => run_boot(alloc, words, shelf, out),
        Command::Load(words) => run_load(alloc, words, shelf, out),
        Command::LoadPanic(words) => run_load_panic(alloc, words, shelf, out),
        Command::Check(words) => run_check(alloc, words, shelf, out),
        Command::Dump(words) => run_dump(alloc, words, shelf, out),
        Command::Exec(words) => run_exec(alloc, words, shelf, out),
        Command::Trace(words) => run_trace(alloc, words, shelf, out),
        Command::Migrate(words) => run_migrate(alloc, words, shelf, out),
        Command::Sample { number } => run_sample(alloc, number, shelf, out),
        Command::BootResident(words) => run_boot_resident(alloc, words, shelf, out),
        Command::Drill(words) => run_drill(alloc, words, shelf, out),
        Command::Core(words) => run_core(alloc, words, shelf, out),
    }
}

// What each answer says, in one clause.
#[tactic(auto, unfolding(file_commands::specs::Taking::Took))]
fn run_words<S: Shelf, O: Sink>(
    alloc: Global,
    words: &[String],
    shelf: &mut S,
    out: &mut O,
) -> Status
    ensures { Holds
        (λ X c. Meets S.Shelf O.Sink c shelf.old out.old (answer_of result) shelf.new out.new)
        (command_of (map string_bytes words.now)) }
{
    match read(alloc, words) {
        Ok(command) => match run_command(alloc, command, shelf, out) {
            Ok(()) => Status::Done,
            Err(stop) => Status::from(stop),
        },
        Err(WordsFault::Usage { why }) => Status::Usage { why },
        Err(WordsFault::Memory) => Status::Memory,
    }
}

/// Does what the words after the program's name say: takes the files that they name from the shelf, works in memory,
/// puts the outputs, and says the text. This project's own.
///
/// Three kinds of clauses: over every shelf and sink; over files that are told; and what a device's count of faults says.
/// The host's shelf tells no files, since other programs may change them at any time. What is said over told files is said
/// of it too, by the one body: it serves all shelves, and sees of each what it took, and never whether its files are told.
/// `kexec_recorded` of recorded_kexec, which the program calls, says it of the bytes that a log of the calls has.
pub fn kexec<S: Shelf, O: Sink>(
    alloc: Global,
    words: &[String],
    shelf: &mut S,
    out: &mut O,
) -> Status
    // Each answer has its cause over every shelf and sink: the takes that were made, or failed; what was made of them; and
    // the puts and the say that followed, each once.
    ensures meets { Holds
        (λ X c. Meets S.Shelf O.Sink c shelf.old out.old (answer_of result) shelf.new out.new)
        (command_of (map string_bytes words.now)) }

    // Over files that are told it is so by what is read of them.
    ensures told { IfSome (S.files shelf.old)
        (λ held. Holds
        (λ X c. MeetsTold S.Shelf O.Sink c held shelf.old out.old (answer_of result) shelf.new
        out.new) (command_of (map string_bytes words.now))) }

    // What stands after each command that answered Done, over a shelf that tells its files at the call: it tells them at the
    // return too, with each output put (FilesPut), and a sink that told its bytes tells these and the text (Said). `meets`
    // says of every shelf that each output was put, once, with its bytes.
    ensures done { (c : CommandValue) → command_of (map string_bytes words.now) ≡ Ok c
        → answer_of result ≡ done
        → IfSome (S.files shelf.old)
        (λ held. HasDone S.Shelf O.Sink held shelf.old out.old shelf.new out.new c) }

    // The load of a `boot` or a `load` that answered Done is laid by the rules of taking pages and laying a list.
    ensures laid { (c : CommandValue) → command_of (map string_bytes words.now) ≡ Ok c
        → answer_of result ≡ done
        → IfSome (S.files shelf.old)
        (λ held. HasLaid S.Shelf O.Sink held shelf.old out.old shelf.new out.new c) }

    // A command that takes no file, and that nothing refuses, is done over every shelf, told or not, unless an output cannot
    // be put, its text cannot be said, or memory is wanted.
    ensures without_files { (c : CommandValue) → command_of (map string_bytes words.now) ≡ Ok c
        → EndsWithoutFiles S.Shelf O.Sink c shelf.old out.old (answer_of result) shelf.new out.new }

    // What is in order is Done where no device fails, or memory is wanted.
    ensures complete { (c : CommandValue) → command_of (map string_bytes words.now) ≡ Ok c
        → IfSome (S.files shelf.old) (λ held. IsInOrder c held
        → (Rose (S.faults shelf.old) (S.faults shelf.new) → ⊥)
        → (Rose (O.faults out.old) (O.faults out.new) → ⊥)
        → (answer_of result ≡ done) ⊎ (answer_of result ≡ memory)) }

    // And only what is in order is Done.
    ensures in_order { (c : CommandValue) → command_of (map string_bytes words.now) ≡ Ok c
        → answer_of result ≡ done → IfSome (S.files shelf.old) (IsInOrder c) }

    // Files that are not read, and what is refused of those that are, are refused for that reason where no device fails, or
    // memory is wanted.
    ensures refused { (c : CommandValue) → command_of (map string_bytes words.now) ≡ Ok c
        → IfSome (S.files shelf.old) (λ held. (why : Refusal Reason) → HasRefusal c held why
        → (Rose (S.faults shelf.old) (S.faults shelf.new) → ⊥)
        → (Rose (O.faults out.old) (O.faults out.new) → ⊥)
        → (answer_of result ≡ refused why) ⊎ (answer_of result ≡ memory)) }

    // An answer that tells of a device comes only where the count of its faults rose.
    ensures unread { (name : List ℕ) → answer_of result ≡ unread name
        → Rose (S.faults shelf.old) (S.faults shelf.new) }
    ensures unwritten { (name : List ℕ) → answer_of result ≡ unwritten name
        → Rose (S.faults shelf.old) (S.faults shelf.new) }
    ensures unsaid { answer_of result ≡ unsaid → Rose (O.faults out.old) (O.faults out.new) }
{
    run_words(alloc, words, shelf, out)
}
