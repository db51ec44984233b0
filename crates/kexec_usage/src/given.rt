//! The words of a command, each with the name that it has in the table.

ghost use Rattle.std.specs.Prelude.{◌≡◌, IfOk, find, map, option_map, string_bytes, is_some};
ghost use Rattle.std.specs.Str.{bytes_eq};
ghost use Rattle.command_table.specs.inner.Table.{argument_value, argument_values};
ghost use Rattle.kexec_usage.specs.inner.Reading.{reading_value, mistake_value, answer_value, is_option, split_value, value_step, word_step, known_step, option_step, awaited_step, free_step, step, want, reading_start, reading_of, rest_of, answer_of, IsRead};
ghost use Rattle.kexec_usage.specs.inner.Words.{given_value, text_in};

use crate::lookup::{is_repeated, next_word, option_in};
use crate::mistake::Mistake;
use command_table::{Argument, Form, arguments_of};
use std::alloc::{AllocError, Global};

/// A word that is given: the text of a positional word, or of an option's value.
#[derive(Clone, Copy)]
pub struct Given<'a> {
    /// The argument of the table: its name in the help, what it is, and its role where it gives a file.
    pub argument: &'static Argument,
    /// What is given; empty for an option without a value.
    pub text: &'a str,
}

// What a further word is: a mistake, or none.
type Step<'a> = Result<Option<Mistake<'a>>, AllocError>;

// What was read so far of the words after a command.
#[derive(Drop)]
struct Reading<'a> {
    arguments: &'static [Argument],
    // those of which the positional words are still to come
    left: &'static [Argument],
    given: Vec<Given<'a>>,
    // the option whose value comes next
    awaited: Option<&'static Argument>,
    // every further word is a positional word
    is_behind_hyphens: bool,
}

/// What is given up to the first word that the command does not take, and why it does not take that one.
#[derive(Drop)]
pub struct Answer<'a> {
    /// In their order.
    pub given: Vec<Given<'a>>,
    /// None where the command takes all words.
    pub mistake: Option<Mistake<'a>>,
}

// Whether a word is read as an option: `-` alone is a positional word.
fn is_option(word: &str) -> bool
    ensures { result ≡ is_option word.now }
{
    if word == "-" {
        return false;
    }
    word.starts_with('-')
}

// The option of a word and the value behind an equals sign.
fn split_value(word: &str) -> (&str, Option<&str>)
    ensures { (result.0.now, option_map (λ s. s.now) result.1) ≡ split_value word.now }
{
    match word.split_once('=') {
        Some((option, text)) => (option, Some(text)),
        None => (word, None),
    }
}

impl<'a> Reading<'a> {
    fn push(&mut self, argument: &'static Argument, text: &'a str) -> Step<'a>
        ensures { IfOk result (λ m. (reading_value self.new, option_map mistake_value m)
            ≡ value_step (reading_value self.old) (argument_value argument.now) text.now) }
    {
        self.given.push(Given { argument, text })?;
        Ok(None)
    }

    fn read_positional(&mut self, word: &'a str) -> Step<'a>
        ensures { IfOk result (λ m. (reading_value self.new, option_map mistake_value m)
            ≡ word_step (reading_value self.old) word.now) }
    {
        match next_word(self.left) {
            Some((argument, left)) => {
                self.left = left;
                self.push(argument, word)
            }
            None => Ok(Some(Mistake::Surplus(word))),
        }
    }

    // Whether an option is given already.
    fn has(&self, option: &str) -> bool
        ensures { result ≡ is_some (text_in (reading_value self.now).given option.now) }
    {
        text_of(&self.given, option).is_some()
    }

    fn read_known(&mut self, argument: &'static Argument, value: Option<&'a str>) -> Step<'a>
        ensures { IfOk result (λ m. (reading_value self.new, option_map mistake_value m)
            ≡ known_step (reading_value self.old) (argument_value argument.now)
            (option_map (λ s. s.now) value.entry)) }
    {
        if self.has(argument.name) {
            return Ok(Some(Mistake::Again(argument)));
        }
        match (argument.form, value) {
            (Form::Flag, None) => self.push(argument, ""),
            (Form::Flag, Some(_)) => Ok(Some(Mistake::HasValue(argument))),
            (_, Some(text)) => self.push(argument, text),
            (_, None) => {
                self.awaited = Some(argument);
                Ok(None)
            }
        }
    }

    fn read_option(&mut self, word: &'a str) -> Step<'a>
        ensures { IfOk result (λ m. (reading_value self.new, option_map mistake_value m)
            ≡ option_step (reading_value self.old) word.now) }
    {
        let (option, value) = split_value(word);
        match option_in(self.arguments, option) {
            Some(argument) => self.read_known(argument, value),
            None => Ok(Some(Mistake::Unknown(option))),
        }
    }

    // A word behind an option that must have a value.
    fn read_value(&mut self, argument: &'static Argument, word: &'a str) -> Step<'a>
        ensures { IfOk result (λ m. (reading_value self.new, option_map mistake_value m)
            ≡ awaited_step (reading_value self.old) (argument_value argument.now) word.now) }
    {
        if is_option(word) {
            return Ok(Some(Mistake::NoValue {
                argument,
                next: Some(word),
            }));
        }
        self.awaited = None;
        self.push(argument, word)
    }

    // A word that is not a value of an option, before two hyphens.
    fn read_free(&mut self, word: &'a str) -> Step<'a>
        ensures { IfOk result (λ m. (reading_value self.new, option_map mistake_value m)
            ≡ free_step (reading_value self.old) word.now) }
    {
        if word == "--" {
            self.is_behind_hyphens = true;
            return Ok(None);
        }
        if is_option(word) {
            return self.read_option(word);
        }
        self.read_positional(word)
    }

    fn read_word(&mut self, word: &'a str) -> Step<'a>
        ensures { IfOk result (λ m. (reading_value self.new, option_map mistake_value m)
            ≡ step (reading_value self.old) word.now) }
    {
        if let Some(argument) = self.awaited {
            return self.read_value(argument, word);
        }
        if self.is_behind_hyphens {
            return self.read_positional(word);
        }
        self.read_free(word)
    }

    // What is wrong at the end of the words.
    fn want(&self) -> Option<Mistake<'a>>
        ensures { option_map mistake_value result ≡ want (reading_value self.now) }
    {
        if let Some(argument) = self.awaited {
            return Some(Mistake::NoValue {
                argument,
                next: None,
            });
        }
        let (argument, _) = next_word(self.left)?;
        if is_repeated(argument.form) {
            return None;
        }
        Some(Mistake::Missing(argument))
    }
}

// Reads the words behind a command that takes these arguments.
fn read_given<'a>(
    alloc: Global,
    arguments: &'static [Argument],
    words: &'a [String],
) -> Result<Answer<'a>, AllocError>
    ensures { IfOk result (λ a. answer_value a
        ≡ reading_of (reading_start (argument_values arguments.now)) (map string_bytes words.now)) }
{
    let mut reading = Reading {
        arguments,
        left: arguments,
        given: Vec::new(alloc),
        awaited: None,
        is_behind_hyphens: false,
    };
    for word in words {
        let mistake = reading.read_word(word)?;
        if mistake.is_some() {
            return Ok(Answer {
                given: reading.given,
                mistake,
            });
        }
    }
    let mistake = reading.want();
    Ok(Answer {
        given: reading.given,
        mistake,
    })
}

// The words behind the first one.
fn rest_of(words: &[String]) -> &[String]
    ensures { map string_bytes result.now ≡ rest_of (map string_bytes words.now) }
{
    match words.split_first() {
        Some((_, rest)) => rest,
        None => words,
    }
}

/// The words behind the first one, which names the command, as its table tells them, up to the first mistake; where memory
/// is wanting, that is the mistake.
pub fn read_answer<'a>(alloc: Global, words: &'a [String]) -> Answer<'a>
    ensures { IsRead (answer_of (map string_bytes words.now)) result }
{
    match read_given(alloc, arguments_of(words), rest_of(words)) {
        Ok(answer) => answer,
        Err(_) => Answer {
            given: Vec::new(alloc),
            mistake: Some(Mistake::Memory),
        },
    }
}

/// What is given under this name of the help; the first, where there are several.
pub(crate) fn one_of<'b, 'a>(given: &'b [Given<'a>], name: &str) -> Option<&'b Given<'a>>
    ensures { option_map (λ one. given_value one.now) result
        ≡ find (λ one. bytes_eq one.name name.now) (map given_value given.now) }
{
    given.iter().find(|one| one.argument.name == name)
}

/// The text that is given under this name of the help; the first, where there are several.
pub fn text_of<'a>(given: &[Given<'a>], name: &str) -> Option<&'a str>
    ensures { option_map (λ text. text.now) result ≡ text_in (map given_value given.now) name.now }
{
    let one = one_of(given, name)?;
    Some(one.text)
}
