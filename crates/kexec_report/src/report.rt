//! The sentence about a command that was refused.

use crate::causes::Cause;
use crate::fronts::Front;
use crate::plans::write_plan;
use crate::remedies::{budget_remedy, remedy_of};
use command_parts::Status;
use command_table::Name;
use kexec_usage::{Answer, Given, Refusal, text_of};
use std::fmt::{self, Display, Formatter, Write};

/// One sentence: what was wrong, in which file, option or word, and what is wanted.
#[derive(Drop)]
pub struct Report<'a> {
    /// The name by which the program was called.
    pub(crate) program: &'a str,
    pub(crate) status: &'a Status,
    pub(crate) words: &'a [String],
    /// The words as the command takes them.
    pub(crate) answer: Answer<'a>,
    /// The file that was refused, with its word or option, where it is one file's fault.
    pub(crate) file: Option<Given<'a>>,
    /// Why the file or the output failed.
    pub(crate) cause: Option<Cause<'a>>,
    /// What the front of the refused file shows.
    pub(crate) hint: Option<Front>,
    /// The first page of the kernel that is not System RAM.
    pub(crate) page: Option<u64>,
}

// The pool has too few pages below the limit that was given.
fn write_below<W: Write>(pool: u64, need: u64, limit: &str, f: &mut Formatter<W>) -> fmt::Result {
    let more = need.saturating_sub(pool);
    write!(
        f,
        "the pool has too few usable pages below the limit {limit}: {pool} where the load takes {need}; give it at least {more} more there, or raise --below"
    )
}

impl Report<'_> {
    // Whether a crash kernel was to be loaded.
    fn is_crash(&self) -> bool {
        match self.words.first() {
            Some(word) => word.as_str() == Name::LoadPanic.text(),
            None => false,
        }
    }

    // The word that gives the file at fault, and the file's name where the sentence does not begin with it.
    fn write_file<W: Write>(&self, f: &mut Formatter<W>) -> fmt::Result {
        let Some(file) = self.file else {
            return Ok(());
        };
        match self.status {
            Status::Unread { .. } | Status::Unwritten { .. } | Status::TooLong { .. } => {
                write!(f, "{} ", file.argument.name)
            }
            _ => write!(f, "{} {:?}: ", file.argument.name, file.text),
        }
    }

    fn write_status<W: Write>(&self, f: &mut Formatter<W>) -> fmt::Result {
        let given = &self.answer.given;
        match (self.status, self.cause) {
            (Status::Unread { name, .. }, Some(cause)) => {
                write!(f, "{name:?} cannot be read: {cause}")
            }
            (Status::Unwritten { name, .. }, Some(cause)) => {
                write!(f, "{name:?} cannot be written: {cause}")
            }
            (Status::Unsaid, Some(cause)) => {
                write!(f, "standard output cannot be written: {cause}")
            }
            (Status::Plan { fault }, _) => {
                let is_known = self.hint.is_some();
                write_plan(fault, self.is_crash(), is_known, self.page, given, f)
            }
            (Status::NoPages { pool, need }, _) => match text_of(given, "--below") {
                Some(limit) => write_below(*pool, *need, limit, f),
                None => write!(f, "{}", self.status),
            },
            (status, _) => write!(f, "{status}"),
        }
    }

    // What helps, where the sentence does not say so yet.
    fn remedy(&self) -> Option<&'static str> {
        match self.status {
            Status::TooLong { role, .. } => budget_remedy(*role),
            status => remedy_of(status, self.is_crash()),
        }
    }

    fn write_remedy<W: Write>(&self, f: &mut Formatter<W>) -> fmt::Result {
        match (self.hint, self.remedy()) {
            (Some(front), _) => write!(f, "; {front}"),
            (None, Some(remedy)) => write!(f, "; {remedy}"),
            (None, None) => Ok(()),
        }
    }
}

impl Display for Report<'_> {
    fn fmt<W: Write>(&self, f: &mut Formatter<W>) -> fmt::Result {
        write!(f, "{}: ", self.program)?;
        if let Status::Usage { why } = self.status {
            let refusal = Refusal {
                why,
                words: self.words,
                answer: &self.answer,
            };
            return write!(f, "{refusal}");
        }
        self.write_file(f)?;
        self.write_status(f)?;
        self.write_remedy(f)
    }
}
