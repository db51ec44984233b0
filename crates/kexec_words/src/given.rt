//! What is given for the arguments of a command.

ghost use Rattle.std.specs.Prelude.{◌≡◌, IfOk, find, map, option_map, string_bytes};
ghost use Rattle.std.specs.Str.{bytes_eq};
ghost use Rattle.kexec_words.specs.Given.{texts_of, words_of, option_of, word_of, flag_of};
ghost use Rattle.kexec_words.specs.inner.Given.{text_in, texts_in, given_value, given_values};

use command_table::Argument;
use std::alloc::{AllocError, Global};

/// An argument with the texts that are given for it; none where it is not given.
#[derive(Drop)]
pub(crate) struct Given<'a> {
    pub(crate) argument: &'static Argument,
    pub(crate) texts: Vec<&'a str>,
}

// The argument of this name for `clap`.
fn one_of<'b, 'a>(given: &'b [Given<'a>], id: &str) -> Option<&'b Given<'a>>
    ensures { option_map (λ one. given_value one.now) result
        ≡ find (λ one. bytes_eq one.id id.now) (given_values given.now) }
{
    given.iter().find(|one| one.argument.id == id)
}

// Its texts.
fn texts_of<'b, 'a>(given: &'b [Given<'a>], id: &str) -> Option<&'b [&'a str]>
    ensures { option_map (λ texts. texts_in texts.now) result
        ≡ texts_of id.now (given_values given.now) }
{
    let one = one_of(given, id)?;
    Some(one.texts.as_slice())
}

// The value of an option.
pub(crate) fn option_in<'a>(given: &[Given<'a>], id: &str) -> Option<&'a str>
    ensures { text_in result ≡ option_of id.now (given_values given.now) }
{
    texts_of(given, id)?.first().copied()
}

// A positional word that must be there.
pub(crate) fn word_in<'a>(given: &[Given<'a>], id: &str) -> &'a str
    ensures { result.now ≡ word_of id.now (given_values given.now) }
{
    option_in(given, id).unwrap_or("")
}

// Whether an option without a value is given.
pub(crate) fn flag_in(given: &[Given<'_>], id: &str) -> bool
    ensures { result ≡ flag_of id.now (given_values given.now) }
{
    option_in(given, id) == Some("true")
}

// The name that is a positional word.
pub(crate) fn name_in(alloc: Global, given: &[Given<'_>], id: &str) -> Result<String, AllocError>
    ensures { IfOk result (λ s. string_bytes s ≡ word_of id.now (given_values given.now)) }
{
    String::from_str(alloc, word_in(given, id))
}

fn own(alloc: Global, text: Option<&str>) -> Result<Option<String>, AllocError>
    ensures { IfOk result (λ t. option_map string_bytes t ≡ text_in text.entry) }
{
    match text {
        Some(text) => Ok(Some(String::from_str(alloc, text)?)),
        None => Ok(None),
    }
}

// The name that is an option's value.
pub(crate) fn some_name_in(
    alloc: Global,
    given: &[Given<'_>],
    id: &str,
) -> Result<Option<String>, AllocError>
    ensures { IfOk result (λ t. option_map string_bytes t
        ≡ option_of id.now (given_values given.now)) }
{
    own(alloc, option_in(given, id))
}

fn own_all(alloc: Global, texts: &[&str]) -> Result<Vec<String>, AllocError>
    ensures { IfOk result (λ v. map string_bytes v.items ≡ texts_in texts.now) }
{
    let mut names = Vec::with_capacity(alloc, texts.len())?;
    for text in texts {
        names.push(String::from_str(alloc, text)?)?;
    }
    Ok(names)
}

// The names that are positional words of which there may be none, one or several.
pub(crate) fn names_in(
    alloc: Global,
    given: &[Given<'_>],
    id: &str,
) -> Result<Vec<String>, AllocError>
    ensures { IfOk result (λ v. map string_bytes v.items
        ≡ words_of id.now (given_values given.now)) }
{
    match texts_of(given, id) {
        Some(texts) => own_all(alloc, texts),
        None => Ok(Vec::new(alloc)),
    }
}
