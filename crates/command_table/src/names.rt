//! The commands by their names: what the table says of each.

ghost use Rattle.std.specs.Prelude.{◌≡◌};
ghost use Rattle.command_table.specs.Arguments.{arguments_by};
ghost use Rattle.command_table.specs.Names.{name_text, name_of};
ghost use Rattle.command_table.specs.inner.Table.{argument_values};

use crate::commands;
use crate::table::{Argument, Command};
use std::fmt::{self, Display, Formatter, Write};

/// A command.
#[derive(Clone, Copy)]
pub enum Name {
    Boot,
    Load,
    LoadPanic,
    Check,
    Dump,
    Exec,
    Trace,
    Migrate,
    Sample,
    BootResident,
    Drill,
    Core,
}

// All commands, in the order in which they are listed.
pub(crate) const NAMES: [Name; 12] = [
    Name::Boot,
    Name::Load,
    Name::LoadPanic,
    Name::Check,
    Name::Dump,
    Name::Exec,
    Name::Trace,
    Name::Migrate,
    Name::Sample,
    Name::BootResident,
    Name::Drill,
    Name::Core,
];

/// The names of all commands, as a sentence lists them.
pub(crate) struct CommandNames;

// What stands before the name at this place.
fn separator(at: usize) -> &'static str {
    if at == 0 {
        ""
    } else if at < NAMES.len() - 1 {
        ", "
    } else {
        " or "
    }
}

impl Display for CommandNames {
    fn fmt<W: Write>(&self, f: &mut Formatter<W>) -> fmt::Result {
        for (at, name) in NAMES.iter().enumerate() {
            f.write_str(separator(at))?;
            f.write_str(name.text())?;
        }
        Ok(())
    }
}

impl Name {
    /// The word that names the command, the first of its words.
    pub fn text(self) -> &'static str
        ensures { result.now ≡ name_text self }
    {
        self.row().name
    }

    /// The arguments of the command, in their order.
    pub fn arguments(self) -> &'static [Argument]
        ensures { argument_values result.now ≡ arguments_by self }
    {
        self.row().arguments
    }

    // The command as it stands in the table.
    pub(crate) fn row(self) -> Command
        ensures name { result.name.now ≡ name_text self }
        ensures arguments { argument_values result.arguments.now ≡ arguments_by self }
    {
        match self {
            Name::Boot => commands::BOOT,
            Name::Load => commands::LOAD,
            Name::LoadPanic => commands::LOAD_PANIC,
            Name::Check => commands::CHECK,
            Name::Dump => commands::DUMP,
            Name::Exec => commands::EXEC,
            Name::Trace => commands::TRACE,
            Name::Migrate => commands::MIGRATE,
            Name::Sample => commands::SAMPLE,
            Name::BootResident => commands::BOOT_RESIDENT,
            Name::Drill => commands::DRILL,
            Name::Core => commands::CORE,
        }
    }
}

/// The command that this word names.
pub fn name_of(word: &str) -> Option<Name>
    ensures { result ≡ name_of word.now }
{
    NAMES.iter().copied().find(|name| name.text() == word)
}
