//! The sentence about words that are refused.

ghost use Rattle.std.specs.Prelude.{◌≡◌, map, string_bytes};
ghost use Rattle.kexec_usage.specs.inner.OldWords.{meant_of};

use crate::files::shared_file;
use crate::given::{Answer, Given, one_of, text_of};
use crate::lookup::option_in;
use crate::mistake::Mistake;
use crate::old_words::{command_for, has_no_counterpart, option_for, type_for};
use command_table::{Argument, Role, UsageWhy, Which, arguments_of};
use std::fmt::{self, Display, Formatter, Write};

// A sign is not part of a number.
const UNSIGNED: &str = "a number must have no sign";

fn write_command<W: Write>(why: &UsageWhy, words: &[String], f: &mut Formatter<W>) -> fmt::Result {
    let Some(word) = words.first() else {
        return write!(f, "{why}");
    };
    if has_no_counterpart(word) {
        return write!(
            f,
            "{word} is an option of kexec(8), which is another program: it has no counterpart here"
        );
    }
    match command_for(word) {
        Some(command) => write!(
            f,
            "{word} is an option of kexec(8), which is another program: the command here is {command}"
        ),
        None => write!(f, "{word:?} is not a command; {why}"),
    }
}

// Whether a word is a sign and a digit behind it, at least.
fn is_signed(word: &str) -> bool {
    let bytes = word.as_bytes();
    let Some((first, rest)) = bytes.split_first() else {
        return false;
    };
    matches!(first, b'-' | b'+') && rest.first().is_some_and(|byte| byte.is_ascii_digit())
}

// The option of this command that does what the unknown one does for kexec(8).
fn counterpart_of(arguments: &'static [Argument], option: &str) -> Option<&'static str> {
    let other = option_for(option)?;
    let argument = option_in(arguments, other)?;
    Some(argument.name)
}

fn write_unknown<W: Write>(
    arguments: &'static [Argument],
    option: &str,
    f: &mut Formatter<W>,
) -> fmt::Result {
    if let Some(other) = counterpart_of(arguments, option) {
        return write!(
            f,
            "{option} is not an option of this command: the option here is {other}"
        );
    }
    if has_no_counterpart(option) {
        return write!(
            f,
            "{option} is not an option of this command: the option of kexec(8) has no counterpart here"
        );
    }
    write!(f, "{option:?} is not an option of this command")?;
    if is_signed(option) {
        write!(f, "; {UNSIGNED}")?;
    }
    Ok(())
}

fn write_no_value<W: Write>(
    argument: &Argument,
    next: Option<&str>,
    f: &mut Formatter<W>,
) -> fmt::Result {
    let name = argument.name;
    match next {
        Some(word) if argument.kind.is_number() && is_signed(word) => {
            write!(f, "{name}: {word:?} is given, but {UNSIGNED}")
        }
        _ => {
            let value = argument.value;
            write!(f, "{name} needs a value: {name} {value}")
        }
    }
}

fn write_mistake<W: Write>(
    mistake: &Mistake<'_>,
    arguments: &'static [Argument],
    f: &mut Formatter<W>,
) -> fmt::Result {
    match mistake {
        Mistake::Memory => f.write_str("there is not enough memory to say which argument is wrong"),
        Mistake::Unknown(option) => write_unknown(arguments, option, f),
        Mistake::Again(argument) => write!(f, "{} is given twice: give it once", argument.name),
        Mistake::NoValue { argument, next } => write_no_value(argument, *next, f),
        Mistake::HasValue(argument) => {
            let name = argument.name;
            write!(f, "{name} takes no value: leave out = and the value")
        }
        Mistake::Surplus(word) => write!(f, "{word:?} is one argument too many"),
        Mistake::Missing(argument) => write!(f, "{} is missing", argument.name),
    }
}

// Whether the argument of this name is a hexadecimal number.
fn is_hexadecimal(given: &[Given<'_>], name: &str) -> bool {
    match one_of(given, name) {
        Some(one) => one.argument.kind.is_hexadecimal(),
        None => false,
    }
}

fn write_number<W: Write>(
    why: &UsageWhy,
    which: Which,
    given: &[Given<'_>],
    f: &mut Formatter<W>,
) -> fmt::Result {
    let text = text_of(given, which.name()).unwrap_or("");
    write!(f, "{why}: {text:?} is given")?;
    if is_hexadecimal(given, which.name()) && (text.starts_with("0x") || text.starts_with("0X")) {
        f.write_str("; leave out 0x")?;
    }
    if is_signed(text) {
        write!(f, "; {UNSIGNED}")?;
    }
    Ok(())
}

// A type that has not the form of one: it may be that of kexec(8).
fn write_type<W: Write>(why: &UsageWhy, given: &[Given<'_>], f: &mut Formatter<W>) -> fmt::Result {
    let text = text_of(given, "--type").unwrap_or("");
    write!(f, "{why}: {text:?} is given")?;
    match type_for(text) {
        Some(kind) => write!(f, "; this type of kexec(8) is {kind} here"),
        None => Ok(()),
    }
}

fn write_same_name<W: Write>(given: &[Given<'_>], f: &mut Formatter<W>) -> fmt::Result {
    let Some((file, other)) = shared_file(given) else {
        return write!(f, "{}", UsageWhy::SameName);
    };
    let name = file.argument.name;
    let text = file.text;
    write!(
        f,
        "{name} and {other} are both {text:?}: a file that is written must have a name of its own"
    )
}

// The words that may be given several times.
fn write_modules<W: Write>(given: &[Given<'_>], f: &mut Formatter<W>) -> fmt::Result {
    let count = given
        .iter()
        .filter(|one| one.argument.role == Some(Role::Module))
        .count();
    write!(
        f,
        "{count} modules are given, but a kernel takes at most 12"
    )
}

/// Why words are refused, as a sentence that names the word which stood there.
#[derive(Drop)]
pub struct Refusal<'a> {
    /// The reason.
    pub why: &'a UsageWhy,
    /// All words, of which the first is to name a command.
    pub words: &'a [String],
    /// The words behind the first, as the command takes them.
    pub answer: &'a Answer<'a>,
}

impl Display for Refusal<'_> {
    fn fmt<W: Write>(&self, f: &mut Formatter<W>) -> fmt::Result {
        let why = self.why;
        let given = &self.answer.given;
        match why {
            UsageWhy::Command => write_command(why, self.words, f),
            UsageWhy::Parse => match &self.answer.mistake {
                Some(mistake) => write_mistake(mistake, arguments_of(self.words), f),
                None => write!(f, "{why}"),
            },
            UsageWhy::Number { which: Which::Type } => write_type(why, given, f),
            UsageWhy::Number { which } => write_number(why, *which, given, f),
            UsageWhy::SameName => write_same_name(given, f),
            UsageWhy::TooManyModules => write_modules(given, f),
            UsageWhy::NeedsMap => write!(
                f,
                "{why}; `cat /proc/iomem`, as root, prints the map of this machine"
            ),
            UsageWhy::NeedsAt => write!(f, "{why}"),
        }
    }
}

/// The command whose usage line stands before the sentence: the one of the first word, or the one that does what this
/// option does for kexec(8); empty where there is no word.
pub fn meant_of(words: &[String]) -> &str
    ensures { result.now ≡ meant_of (map string_bytes words.now) }
{
    let Some((first, _)) = words.split_first() else {
        return "";
    };
    match command_for(first) {
        Some(command) => command,
        None => first,
    }
}
