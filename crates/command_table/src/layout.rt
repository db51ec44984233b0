//! How help is laid out: entries with their names in a column of their own, and lines of at most 80 columns.

use crate::table::{Argument, Form, Kind};
use std::fmt::{self, Formatter, Write};

/// The columns of a line.
const WIDTH: usize = 80;

// A text that is written word by word; a word that has no room in the line begins a new one.
#[derive(Drop)]
struct Lines {
    // blanks before each further line
    indent: usize,
    // columns that are taken in the present line
    column: usize,
    // a word stands in the present line
    is_begun: bool,
}

fn write_blanks<W: Write>(count: usize, f: &mut Formatter<W>) -> fmt::Result {
    write!(f, "{:count$}", "")
}

impl Lines {
    // Lines of which the first is written as far as this column.
    fn at(column: usize) -> Lines {
        Lines {
            indent: column,
            column,
            is_begun: false,
        }
    }

    fn break_line<W: Write>(&mut self, f: &mut Formatter<W>) -> fmt::Result {
        f.write_str("\n")?;
        self.column = self.indent;
        write_blanks(self.indent, f)
    }

    // Writes what parts a word of this length from the one before it.
    fn part<W: Write>(&mut self, length: usize, f: &mut Formatter<W>) -> fmt::Result {
        if !self.is_begun {
            self.is_begun = true;
            return Ok(());
        }
        if self.column.saturating_add(length) >= WIDTH {
            return self.break_line(f);
        }
        self.column = self.column.saturating_add(1);
        f.write_str(" ")
    }

    // Writes a word or a mark behind the last one.
    fn push<W: Write>(&mut self, word: &str, f: &mut Formatter<W>) -> fmt::Result {
        self.column = self.column.saturating_add(word.len());
        f.write_str(word)
    }

    // Writes the words of a text.
    fn fill<W: Write>(&mut self, text: &str, f: &mut Formatter<W>) -> fmt::Result {
        for word in text.split(' ') {
            self.part(word.len(), f)?;
            self.push(word, f)?;
        }
        Ok(())
    }
}

/// Writes a paragraph.
pub(crate) fn write_paragraph<W: Write>(text: &str, f: &mut Formatter<W>) -> fmt::Result {
    Lines::at(0).fill(text, f)
}

// Begins the line of an entry whose name has this length, among entries whose longest name has this width.
fn write_gap<W: Write>(length: usize, width: usize, f: &mut Formatter<W>) -> fmt::Result {
    write_blanks(width.saturating_sub(length).saturating_add(2), f)
}

// The column at which the texts of entries begin.
fn text_column(width: usize) -> usize {
    width.saturating_add(4)
}

/// Writes an entry: a name, and what is said of it.
pub(crate) fn write_entry<W: Write>(
    name: &str,
    text: &str,
    width: usize,
    f: &mut Formatter<W>,
) -> fmt::Result {
    write!(f, "\n  {name}")?;
    write_gap(name.len(), width, f)?;
    Lines::at(text_column(width)).fill(text, f)
}

// How many columns the name of an argument takes, with the one of its value.
fn label_width(argument: &Argument) -> usize {
    let length = argument.name.len();
    if argument.value.is_empty() {
        length
    } else {
        length
            .saturating_add(1)
            .saturating_add(argument.value.len())
    }
}

// Writes the name of an argument, with the one of its value.
fn write_label<W: Write>(argument: &Argument, f: &mut Formatter<W>) -> fmt::Result {
    f.write_str(argument.name)?;
    if argument.value.is_empty() {
        return Ok(());
    }
    f.write_str(" ")?;
    f.write_str(argument.value)
}

// Writes what an argument is, before what is said of it: which file it gives, and whether it is read or written; or the
// words to choose from.
fn write_what<W: Write>(
    argument: &Argument,
    lines: &mut Lines,
    f: &mut Formatter<W>,
) -> fmt::Result {
    if let Some(role) = argument.role {
        lines.fill(role.file(), f)?;
    }
    match argument.kind {
        Kind::Input => lines.fill("to read:", f),
        Kind::Output => lines.fill("to write:", f),
        Kind::Choice => {
            lines.fill(argument.choices, f)?;
            lines.push(":", f)
        }
        _ => Ok(()),
    }
}

fn write_argument<W: Write>(
    argument: &Argument,
    width: usize,
    f: &mut Formatter<W>,
) -> fmt::Result {
    f.write_str("\n  ")?;
    write_label(argument, f)?;
    write_gap(label_width(argument), width, f)?;
    let mut lines = Lines::at(text_column(width));
    write_what(argument, &mut lines, f)?;
    lines.fill(argument.text, f)
}

// The columns of the longest name among the options, or among the positional words.
fn widest(arguments: &[Argument], are_options: bool) -> usize {
    let mut most = 0;
    for argument in arguments {
        if argument.form.is_option() == are_options {
            most = most.max(label_width(argument));
        }
    }
    most
}

/// Writes the entries of the options, or of the positional words, under a title; nothing where there is none.
pub(crate) fn write_arguments<W: Write>(
    title: &str,
    arguments: &[Argument],
    are_options: bool,
    f: &mut Formatter<W>,
) -> fmt::Result {
    let width = widest(arguments, are_options);
    if width == 0 {
        return Ok(());
    }
    write!(f, "\n\n{title}:")?;
    for argument in arguments {
        if argument.form.is_option() == are_options {
            write_argument(argument, width, f)?;
        }
    }
    Ok(())
}

fn is_optional(argument: &Argument) -> bool {
    matches!(argument.form, Form::Value | Form::Flag)
}

fn write_needed<W: Write>(arguments: &[Argument], f: &mut Formatter<W>) -> fmt::Result {
    for argument in arguments {
        if argument.form == Form::Needed {
            f.write_str(" ")?;
            write_label(argument, f)?;
        }
    }
    Ok(())
}

// A single option by its name, and several as a whole.
fn write_optional<W: Write>(arguments: &[Argument], f: &mut Formatter<W>) -> fmt::Result {
    let mut options = arguments.iter().filter(|one| is_optional(one));
    match (options.next(), options.next()) {
        (Some(argument), None) => {
            f.write_str(" [")?;
            write_label(argument, f)?;
            f.write_str("]")
        }
        (Some(_), Some(_)) => f.write_str(" [OPTIONS]"),
        (None, _) => Ok(()),
    }
}

fn write_words<W: Write>(arguments: &[Argument], f: &mut Formatter<W>) -> fmt::Result {
    for argument in arguments {
        let name = argument.name;
        match argument.form {
            Form::Word => write!(f, " {name}")?,
            Form::Words => write!(f, " [{name}]..")?,
            _ => {}
        }
    }
    Ok(())
}

/// Writes the usage line of a command, behind the program's name.
pub(crate) fn write_usage<W: Write>(
    name: &str,
    arguments: &[Argument],
    f: &mut Formatter<W>,
) -> fmt::Result {
    f.write_str(name)?;
    write_needed(arguments, f)?;
    write_optional(arguments, f)?;
    write_words(arguments, f)
}
