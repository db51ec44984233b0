//! What the commands and their arguments mean, for people: the table, laid out.

ghost use Rattle.std.specs.Prelude.{◌≡◌, map, string_bytes};
ghost use Rattle.command_table.specs.Names.{name_of};
ghost use Rattle.command_table.specs.inner.Table.{argument_values};
ghost use Rattle.command_table.specs.inner.Texts.{first_name, arguments_of};

use crate::commands;
use crate::layout::{write_arguments, write_entry, write_paragraph, write_usage};
use crate::names::{NAMES, Name, name_of};
use crate::table::Argument;
use std::fmt::{self, Display, Formatter, Write};

/// The usage line of a command, or of all commands where none is named, under the name by which the program was called.
#[derive(Clone, Copy)]
pub struct Usage<'a> {
    program: &'a str,
    name: Option<Name>,
}

/// The help of a command, or of all commands where none is named, under the name by which the program was called. Each line
/// of it has at most 80 columns, unless that name is longer than `kexec`, and its last one no end.
#[derive(Clone, Copy)]
pub struct Help<'a> {
    usage: Usage<'a>,
}

// The command that the first of the words names.
fn first_name(words: &[String]) -> Option<Name>
    ensures { result ≡ first_name (map string_bytes words.now) }
{
    let first = words.first()?;
    name_of(first)
}

fn write_notes<W: Write>(notes: &[&str], f: &mut Formatter<W>) -> fmt::Result {
    for note in notes {
        f.write_str("\n\n")?;
        write_paragraph(note, f)?;
    }
    Ok(())
}

// What is said of a command after its usage line.
fn write_command<W: Write>(name: Name, f: &mut Formatter<W>) -> fmt::Result {
    let row = name.row();
    write_paragraph(row.about, f)?;
    write_arguments("Arguments", row.arguments, false, f)?;
    write_arguments("Options", row.arguments, true, f)?;
    write_notes(row.notes, f)
}

fn write_commands<W: Write>(f: &mut Formatter<W>) -> fmt::Result {
    f.write_str("\n\nCommands:")?;
    for name in NAMES {
        let row = name.row();
        write_entry(row.name, row.brief, commands::LONGEST_NAME, f)?;
    }
    Ok(())
}

fn write_files<W: Write>(f: &mut Formatter<W>) -> fmt::Result {
    f.write_str("\n\nFiles:")?;
    for (name, text) in commands::FILES {
        write_entry(name, text, commands::LONGEST_FILE, f)?;
    }
    Ok(())
}

// What is said where no command is named.
fn write_program<W: Write>(program: &str, f: &mut Formatter<W>) -> fmt::Result {
    write_paragraph(commands::PROGRAM, f)?;
    write_commands(f)?;
    write_files(f)?;
    write!(f, "\n\n{program} COMMAND --help describes a command.")
}

impl Display for Usage<'_> {
    fn fmt<W: Write>(&self, f: &mut Formatter<W>) -> fmt::Result {
        write!(f, "Usage: {} ", self.program)?;
        match self.name {
            Some(name) => write_usage(name.text(), name.arguments(), f),
            None => f.write_str("COMMAND [OPTIONS] ARGUMENTS.."),
        }
    }
}

impl Display for Help<'_> {
    fn fmt<W: Write>(&self, f: &mut Formatter<W>) -> fmt::Result {
        write!(f, "{}\n\n", self.usage)?;
        match self.usage.name {
            Some(name) => write_command(name, f),
            None => write_program(self.usage.program, f),
        }
    }
}

/// The help of the command that the first word names, and else of all commands; the program is called by this name.
pub fn help_of<'a>(program: &'a str, words: &[String]) -> Help<'a>
    ensures { result.usage.name ≡ first_name (map string_bytes words.now) }
{
    let name = first_name(words);
    let usage = Usage { program, name };
    Help { usage }
}

/// The usage line of the command of this name, and else of all commands; the program is called by `program`.
pub fn usage_of<'a>(program: &'a str, word: &str) -> Usage<'a>
    ensures { result.name ≡ name_of word.now }
{
    Usage {
        program,
        name: name_of(word),
    }
}

/// The arguments of the command that the first word names, in their order; none where it names none.
pub fn arguments_of(words: &[String]) -> &'static [Argument]
    ensures { argument_values result.now
        ≡ arguments_of (first_name (map string_bytes words.now)) }
{
    match first_name(words) {
        Some(name) => name.arguments(),
        None => &[],
    }
}
