//! Words are judged twice: by `clap`, as the command, and by kexec_usage, for the sentence. Both judge alike: kexec_usage
//! finds a mistake exactly where `clap` does not take the words. A table of lines, options and forms of words.

use command_table::UsageWhy;
use kexec_usage::read_answer;
use kexec_words::{WordsFault, read};
use std::alloc::Global;
use std::test::Fail;

// Lines of each command, some with a word too few; and an option for each, of every kind, or what is none of this command.
const LINES: [(&str, &str); 20] = [
    ("boot m p o k", "--kept"),
    ("boot m p o k x y", "--type"),
    ("boot m p o k", "--below"),
    ("boot m p o", "--command"),
    ("boot m p o k", "--ma"),
    ("load m p o r k", "--kept"),
    ("load m p o r k x", "--initrd"),
    ("load-panic m o r k", "--map"),
    ("load-panic m o r k", "--at"),
    ("check m r", "--help"),
    ("dump m r", "-h"),
    ("exec m r o", "--twice"),
    ("exec m r", "--twice"),
    ("trace m o 4 1", "--swap"),
    ("migrate r o", "-"),
    ("sample 7", "m"),
    ("sample", "--NUMBER"),
    ("boot-resident m p o k q", "--at"),
    ("drill m p o v", "--map"),
    ("core m o 8", "--address"),
];

// Forms of words, in which a name stands for the sign @.
const FORMS: [&str; 22] = [
    "@", "@ 1", "@=1", "@=", "@=a=b", "@1", "@ -", "@ -1", "@=-1", "@ --", "@ @", "@ 1 @ 1",
    "@=1 @=1", "@ 1 2 @", "-- @", "-- @=1", "-- --", "--", "@ 1 -- 2", "--=1", "---", "",
];

fn push_form(alloc: Global, form: &str, name: &str, words: &mut Vec<String>) -> Result<(), Fail> {
    for word in form.split(' ') {
        let text = match word.strip_prefix('@') {
            Some(rest) => format!(in alloc; "{name}{rest}")?,
            None => String::from_str(alloc, word)?,
        };
        words.push(text)?;
    }
    Ok(())
}

// The words of a line, with these between its first word and the others.
fn words_before(alloc: Global, line: &str, form: &str, name: &str) -> Result<Vec<String>, Fail> {
    let mut words: Vec<String> = Vec::new(alloc);
    match line.split_once(' ') {
        Some((command, others)) => {
            push_form(alloc, command, name, &mut words)?;
            push_form(alloc, form, name, &mut words)?;
            push_form(alloc, others, name, &mut words)?;
        }
        None => {
            push_form(alloc, line, name, &mut words)?;
            push_form(alloc, form, name, &mut words)?;
        }
    }
    Ok(words)
}

// The words of a line, with these behind.
fn words_behind(alloc: Global, line: &str, form: &str, name: &str) -> Result<Vec<String>, Fail> {
    let mut words: Vec<String> = Vec::new(alloc);
    push_form(alloc, line, name, &mut words)?;
    push_form(alloc, form, name, &mut words)?;
    Ok(words)
}

// Whether both judge these words alike.
fn is_judged_alike(alloc: Global, words: &[String]) -> Result<bool, Fail> {
    let is_taken = match read(alloc, words) {
        Ok(_) => true,
        Err(WordsFault::Usage { why }) => !matches!(why, UsageWhy::Parse),
        Err(WordsFault::Memory) => return Err(Fail::from("memory")),
    };
    let answer = read_answer(alloc, words);
    Ok(is_taken == answer.mistake.is_none())
}

// The first form, in either place, that is not judged alike.
fn form_apart(alloc: Global, line: &str, name: &str) -> Result<Option<&'static str>, Fail> {
    for form in FORMS {
        let before = words_before(alloc, line, form, name)?;
        let behind = words_behind(alloc, line, form, name)?;
        if !is_judged_alike(alloc, &before)? || !is_judged_alike(alloc, &behind)? {
            return Ok(Some(form));
        }
    }
    Ok(None)
}

#[test]
fn finds_mistakes_where_words_are_not_taken(rt: HostRuntime) -> Result<(), Fail> {
    let alloc = rt.alloc();
    for (line, name) in LINES {
        let apart = form_apart(alloc, line, name)?;
        assert!(rt; apart.is_none(), "{line}, {name}: {apart:?}");
    }
    Ok(())
}
