//! All commands.

ghost use Rattle.std.specs.Prelude.{IfOk, map, string_bytes, Some};
ghost use Rattle.kexec_words.specs.Meaning.{command_of, command_by_name, command_in};
ghost use Rattle.kexec_words.specs.inner.Given.{given_values};
ghost use Rattle.kexec_words.specs.inner.Meaning.{Answers};
ghost use Rattle.kexec_words.specs.inner.Limits.{IsWithinLimits, HasOutputsApart};
ghost use Rattle.kexec_words.specs.inner.Values.{command_value};

use crate::commands::Command;
use crate::faults::WordsFault;
use crate::given::Given;
use crate::parsing::given_behind;
use crate::planned::{boot_in, load_in};
use crate::unplanned::{
    boot_resident_in, core_in, drill_in, exec_in, load_panic_in, loaded_in, migrate_in, sample_in,
    trace_in,
};
use command_table::{Name, UsageWhy, name_of};
use std::alloc::Global;

// What is given for the arguments of a command says this.
fn command_in(alloc: Global, name: Name, given: &[Given<'_>]) -> Result<Command, WordsFault>
    ensures { Answers command_value (command_in name (given_values given.now)) result }
{
    Ok(match name {
        Name::Boot => Command::Boot(boot_in(alloc, given)?),
        Name::Load => Command::Load(load_in(alloc, given)?),
        Name::LoadPanic => Command::LoadPanic(load_panic_in(alloc, given)?),
        Name::Check => Command::Check(loaded_in(alloc, given)?),
        Name::Dump => Command::Dump(loaded_in(alloc, given)?),
        Name::Exec => Command::Exec(exec_in(alloc, given)?),
        Name::Trace => Command::Trace(trace_in(alloc, given)?),
        Name::Migrate => Command::Migrate(migrate_in(alloc, given)?),
        Name::Sample => Command::Sample {
            number: sample_in(given)?,
        },
        Name::BootResident => Command::BootResident(boot_resident_in(alloc, given)?),
        Name::Drill => Command::Drill(drill_in(alloc, given)?),
        Name::Core => Command::Core(core_in(alloc, given)?),
    })
}

fn read_named(alloc: Global, name: Name, words: &[String]) -> Result<Command, WordsFault>
    ensures { Answers command_value
        (command_by_name (Some name) (map string_bytes words.now)) result }
{
    let given = given_behind(alloc, name, words)?;
    command_in(alloc, name, &given)
}

/// The command that the words after the program's name say, or the first reason to refuse them, in the order of
/// `UsageWhy`; or want of memory. This project's own.
pub fn read(alloc: Global, words: &[String]) -> Result<Command, WordsFault>
    ensures answer { Answers command_value (command_of (map string_bytes words.now)) result }
    ensures limits { IfOk result (λ c. IsWithinLimits (command_value c)) }
    ensures apart { IfOk result (λ c. HasOutputsApart (command_value c)) }
{
    let Some((first, rest)) = words.split_first() else {
        return Err(UsageWhy::Command.into());
    };
    match name_of(first) {
        Some(name) => read_named(alloc, name, rest),
        None => Err(UsageWhy::Command.into()),
    }
}
