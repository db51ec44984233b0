//! How the program ends: its exit status, and what it says.

ghost use Rattle.std.specs.Prelude.{◌≡◌, IfSome, IsNone, IsSome, false, true};
ghost use Rattle.command_parts.specs.ExitStatuses.{code_of};
ghost use Rattle.kexec_report.specs.inner.Endings.{is_asked_for, is_quiet};

use crate::causes::{Failure, cause_of};
use crate::files::file_of;
use crate::fronts::hint_of;
use crate::outside::page_outside_ram;
use crate::report::Report;
use crate::words::WordsError;
use command_parts::Status;
use command_table::{Help, Usage, help_of, usage_of};
use kexec_usage::{asks_for_help, asks_for_version, meant_of, read_answer};
use std::fmt::{self, Display, Formatter, Write};
use std::rt::Files;

/// The exit status where the system does not give the words; no status of a command has it.
const NO_WORDS: u8 = 65;

/// The exit status where standard output did not take the text.
const UNSAID: u8 = 5;

/// The name, the version, and the logic that proved the program.
const VERSION: &str = "\
Kernelyet 1.0, a kexec over memory files
proved by Rattle, with the logic dac8208d650f15bf";

/// What is said.
#[derive(Drop)]
pub enum Notice<'a> {
    /// Why the system did not give the words to the program of this name.
    NoWords(&'a str, WordsError),
    /// The version that was asked for of the program of this name.
    Version(&'a str),
    /// The help that was asked for.
    Help(Help<'a>),
    /// The usage line of the command that is meant, and behind it why the words were refused.
    Usage(Usage<'a>, Report<'a>),
    /// Why a command was refused otherwise.
    Refusal(Report<'a>),
}

impl Notice<'_> {
    /// Whether it is what the words asked for, the help or the version, and no refusal: that goes to standard output.
    pub fn is_asked_for(&self) -> bool
        ensures { result ≡ is_asked_for self.now }
    {
        matches!(self, Notice::Version(_) | Notice::Help(_))
    }
}

impl Display for Notice<'_> {
    fn fmt<W: Write>(&self, f: &mut Formatter<W>) -> fmt::Result {
        match self {
            Notice::NoWords(program, error) => write!(f, "{program}: {error}"),
            Notice::Version(program) => write!(
                f,
                "{VERSION}\n{program} --help lists the commands, and {program} COMMAND --help describes one."
            ),
            Notice::Help(help) => write!(f, "{help}"),
            Notice::Usage(usage, report) => write!(f, "{usage}\n{report}"),
            Notice::Refusal(report) => write!(f, "{report}"),
        }
    }
}

// Why a command was refused. The words are read once more, and the refused file is looked at, only here.
fn report_of<'a, R: Files + AllocGlobal>(
    rt: &R,
    program: &'a str,
    words: &'a [String],
    status: &'a Status,
    failure: Option<Failure>,
) -> Report<'a> {
    let answer = read_answer(rt.alloc(), words);
    let file = file_of(status, &answer.given);
    Report {
        program,
        status,
        words,
        file,
        cause: cause_of(rt, &answer.given, status, failure),
        hint: hint_of(rt, status, file),
        page: page_outside_ram(rt, &answer.given, status),
        answer,
    }
}

// What is said of words that are refused.
fn words_notice<'a, R: Files + AllocGlobal>(
    rt: &R,
    program: &'a str,
    words: &'a [String],
    status: &'a Status,
) -> Notice<'a> {
    if asks_for_help(words) {
        return Notice::Help(help_of(program, words));
    }
    if asks_for_version(words) {
        return Notice::Version(program);
    }
    let usage = usage_of(program, meant_of(words));
    Notice::Usage(usage, report_of(rt, program, words, status, None))
}

// What is said of a command that is not done.
fn notice_of<'a, R: Files + AllocGlobal>(
    rt: &R,
    program: &'a str,
    words: &'a [String],
    status: &'a Status,
    failure: Option<Failure>,
) -> Notice<'a>
    ensures { is_asked_for result ≡ true → code_of status.now ≡ 2 }
{
    match status {
        Status::Usage { .. } => words_notice(rt, program, words, status),
        _ => Notice::Refusal(report_of(rt, program, words, status, failure)),
    }
}

// Whether a command that ended with this status says nothing: it is done, or nobody reads its text any more.
fn is_quiet(code: u8, failure: Option<Failure>) -> bool
    ensures { result ≡ is_quiet code failure }
{
    match failure {
        Some(Failure::ClosedPipe) => code == 0 || code == UNSAID,
        _ => code == 0,
    }
}

/// The exit status, and what is said before it.
#[derive(Drop)]
pub struct Ending<'a> {
    /// The exit status.
    pub code: u8,
    /// What is said; None where there is nothing to say.
    pub notice: Option<Notice<'a>>,
}

impl<'a> Ending<'a> {
    /// The system did not give the words to the program of this name.
    pub fn without_words(program: &'a str, error: WordsError) -> Ending<'a>
        ensures code { result.code ≡ 65 }
        ensures told { IsSome result.notice }
    {
        Ending {
            code: NO_WORDS,
            notice: Some(Notice::NoWords(program, error)),
        }
    }

    /// A command with these words ended so, called by this name of the program; `failure` is what the edge keeps of the call
    /// that failed.
    pub fn of<R: Files + AllocGlobal>(
        rt: &R,
        program: &'a str,
        words: &'a [String],
        status: &'a Status,
        failure: Option<Failure>,
    ) -> Ending<'a>
        // The exit status is the one of the answer.
        ensures code { result.code ≡ code_of status.now }

        // What is done says nothing, nor does a text whose reader has closed the pipe. All else is told.
        ensures silent { is_quiet (code_of status.now) failure ≡ true → IsNone result.notice }
        ensures told { is_quiet (code_of status.now) failure ≡ false → IsSome result.notice }

        // Help and version are said of refused words alone.
        ensures asked { IfSome result.notice (λ n. is_asked_for n ≡ true → code_of status.now ≡ 2) }
    {
        let code = status.code();
        let notice = if is_quiet(code, failure) {
            None
        } else {
            Some(notice_of(rt, program, words, status, failure))
        };
        Ending { code, notice }
    }
}
