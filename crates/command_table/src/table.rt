//! What the table of the commands says of an argument, and of a command.

ghost use Rattle.std.specs.Prelude.{◌≡◌};
ghost use Rattle.command_table.specs.inner.Table.{is_file, is_hexadecimal, is_number, is_option};

use crate::roles::Role;

/// How an argument is given.
#[derive(Clone, Copy)]
pub enum Form {
    /// A positional word that must be there.
    Word,
    /// No positional word, one or several; the last one of a command alone.
    Words,
    /// An option of one value.
    Value,
    /// An option of one value, without which the command is refused.
    Needed,
    /// An option without a value.
    Flag,
}

/// What an argument is.
#[derive(Clone, Copy)]
pub enum Kind {
    /// The name of a file that is read.
    Input,
    /// The name of a file that is written.
    Output,
    /// An address in hexadecimal.
    Address,
    /// A word of a list, in hexadecimal.
    ListWord,
    /// A number in decimal.
    Count,
    /// A text.
    Text,
    /// One of a few words.
    Choice,
    /// Whether the option is given.
    Presence,
}

/// An argument of a command.
#[derive(Clone, Copy)]
pub struct Argument {
    /// The name for `clap`: that of an option without its two hyphens.
    pub id: &'static str,
    /// The name for people: that of a positional word in capital letters, that of an option with its two hyphens.
    pub name: &'static str,
    /// What the value of an option is called; empty where it has none.
    pub value: &'static str,
    /// How it is given.
    pub form: Form,
    /// What it is.
    pub kind: Kind,
    /// Which file it gives; None where it gives none.
    pub role: Option<Role>,
    /// The words that there are to choose from; else empty.
    pub choices: &'static str,
    /// What the help says of it.
    pub text: &'static str,
}

/// A command: what is said of it, and its arguments.
#[derive(Clone, Copy)]
pub(crate) struct Command {
    pub(crate) name: &'static str,
    // in the list of the commands
    pub(crate) brief: &'static str,
    // before the arguments
    pub(crate) about: &'static str,
    // behind the arguments, each a paragraph
    pub(crate) notes: &'static [&'static str],
    // in their order
    pub(crate) arguments: &'static [Argument],
}

impl Kind {
    /// Whether it is the name of a file.
    pub fn is_file(self) -> bool
        ensures { result ≡ is_file self }
    {
        matches!(self, Kind::Input | Kind::Output)
    }

    /// Whether it is a number in hexadecimal.
    pub fn is_hexadecimal(self) -> bool
        ensures { result ≡ is_hexadecimal self }
    {
        matches!(self, Kind::Address | Kind::ListWord)
    }

    /// Whether it is a number.
    pub fn is_number(self) -> bool
        ensures { result ≡ is_number self }
    {
        matches!(self, Kind::Address | Kind::ListWord | Kind::Count)
    }
}

impl Form {
    /// Whether an argument of this form is an option.
    pub fn is_option(self) -> bool
        ensures { result ≡ is_option self }
    {
        matches!(self, Form::Value | Form::Needed | Form::Flag)
    }
}
