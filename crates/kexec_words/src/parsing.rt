//! What `clap` finds in the words behind a command.

ghost use Rattle.std.specs.Prelude.{◌≡◌, IfOk, Ok, [], map, string_bytes, true, false, unwrap_or};
ghost use Rattle.clap.specs.Words.{app_of, rule_of, rows_of, found_of, all_of, is_simple_and_free};
ghost use Rattle.command_table.specs.inner.Table.{argument_value, argument_values};
ghost use Rattle.kexec_words.specs.Apps.{rule_by, app_taking};
ghost use Rattle.kexec_words.specs.Given.{given_by, given_of};
ghost use Rattle.kexec_words.specs.Meaning.{answer_by};
ghost use Rattle.kexec_words.specs.inner.Given.{Parses, texts_in, given_value, given_values};
ghost use Rattle.kexec_words.specs.inner.Meaning.{Answers};

use crate::WordsFault;
use crate::given::Given;
use clap::error::ErrorKind;
use clap::{Arg, ArgAction, ArgMatches, Command};
use command_table::{Argument, Form, Name, UsageWhy};
use std::alloc::{AllocError, Global};

fn arg_of<'a>(alloc: Global, argument: Argument) -> Arg<'a>
    ensures rule { rule_of result ≡ rule_by (argument_value argument) }
    ensures own { result.global ≡ false }
{
    let arg = Arg::new(alloc, argument.id);
    match argument.form {
        Form::Word => arg.required(true).action(ArgAction::Set),
        Form::Words => arg.action(ArgAction::Append),
        Form::Value | Form::Needed => arg.long(argument.id).action(ArgAction::Set),
        Form::Flag => arg.long(argument.id).action(ArgAction::SetTrue),
    }
}

// The command of this name, which reads the words after its name.
fn command_with<'a>(
    alloc: Global,
    name: &'a str,
    arguments: &[Argument],
) -> Result<Command<'a>, AllocError>
    ensures { IfOk result (λ c. app_of c
        ≡ app_taking name.entry.now (argument_values arguments.now)) }
{
    let mut command = Command::new(alloc, name).no_binary_name(true);
    for argument in arguments {
        command = command.arg(arg_of(alloc, *argument))?;
    }
    Ok(command)
}

fn matches_for<'a>(
    alloc: Global,
    name: &'a str,
    arguments: &[Argument],
    words: &'a [String],
) -> Result<ArgMatches<'a>, WordsFault>
    requires simple { is_simple_and_free
        (app_taking name.now (argument_values arguments.now)) ≡ true }
    ensures { Parses (app_taking name.entry.now (argument_values arguments.now))
        (map string_bytes words.entry.now) result }
{
    let command = command_with(alloc, name, arguments)?;
    match command.try_get_matches_from(words) {
        Ok(matches) => Ok(matches),
        Err(error) if error.kind() == ErrorKind::OutOfMemory => Err(WordsFault::Memory),
        Err(_) => Err(WordsFault::Usage {
            why: UsageWhy::Parse,
        }),
    }
}

// The texts that are found under this name.
fn texts_for<'a>(
    alloc: Global,
    matches: &ArgMatches<'a>,
    id: &str,
) -> Result<Vec<&'a str>, AllocError>
    ensures { IfOk result (λ v. texts_in v.items
        ≡ unwrap_or (all_of id.now (rows_of (found_of matches.now))) []) }
{
    match matches.get_strs(id) {
        Some(texts) => Vec::from_slice(alloc, texts),
        None => Ok(Vec::new(alloc)),
    }
}

// What is found for an argument.
fn given_by<'a>(
    alloc: Global,
    matches: &ArgMatches<'a>,
    argument: &'static Argument,
) -> Result<Given<'a>, AllocError>
    ensures { IfOk result (λ g. given_value g
        ≡ given_by (rows_of (found_of matches.now)) (argument_value argument.now)) }
{
    let texts = texts_for(alloc, matches, argument.id)?;
    Ok(Given { argument, texts })
}

// What is found for each of the arguments, in their order.
fn given_of<'a>(
    alloc: Global,
    matches: &ArgMatches<'a>,
    arguments: &'static [Argument],
) -> Result<Vec<Given<'a>>, AllocError>
    ensures { IfOk result (λ v. given_values v.items
        ≡ given_of (argument_values arguments.now) (rows_of (found_of matches.now))) }
{
    let mut given = Vec::with_capacity(alloc, arguments.len())?;
    for argument in arguments {
        given.push(given_by(alloc, matches, argument)?)?;
    }
    Ok(given)
}

/// What the words behind a command give for its arguments, where `clap` takes them.
pub(crate) fn given_behind<'a>(
    alloc: Global,
    name: Name,
    words: &'a [String],
) -> Result<Vec<Given<'a>>, WordsFault>
    ensures { Answers (λ v. given_values v.items)
        (answer_by name (λ given. Ok given) (map string_bytes words.now)) result }
{
    let arguments = name.arguments();
    let matches = matches_for(alloc, name.text(), arguments, words)?;
    Ok(given_of(alloc, &matches, arguments)?)
}
