//! Why a list is not accepted.

ghost use Rattle.std.specs.Prelude.{◌≡◌};
ghost use Rattle.list_checker.specs.inner.Texts.{cause_text};

use kx_pages::{Page, WordFault};
use std::alloc::{AllocError, AllocFailed};
use std::fmt::{self, Display, Formatter, Write};
use thiserror::Error;

/// Why a word of a list is refused: this project's own reasons, in the order of their numbers. A pair is the destination
/// and the source page of a source word.
#[derive(Clone, Copy, Debug, PartialEq, Eq)]
pub enum Why {
    /// Its low twelve bits are not exactly one of the flags destination, link, done and source.
    Flags,
    /// It is the head, and no link or done word; in a crash list, no done word.
    HeadKind,
    /// It links to a page that is already a link page.
    LinkAgain,
    /// It is a destination or source word in the last slot of a page.
    RunsOff,
    /// It is a source word, and no destination word came before it.
    NoDestination,
    /// Its pair's destination is no page of the segments.
    NotWanted,
    /// Its pair's destination is an earlier pair's destination.
    TwiceWritten,
    /// Its pair's source is an earlier pair's destination.
    SourceSpoiled,
    /// Its link page is an earlier pair's destination, or its pair's destination is a link page so far. With context
    /// preserved the same of sources.
    LinkSpoiled,
    /// Its link page, its pair's destination or its pair's source is the control page.
    ControlTouched,
    /// With context preserved, its pair's destination or source is an earlier pair's source.
    PairsMeet,
    /// With context preserved, its link page, its pair's destination or its pair's source is the swap page; or it is the
    /// head, and the swap page is the control page.
    SwapTouched,
    /// Its pair's source does not hold what its destination is to have.
    WrongBytes,
    /// It is the done word, and this is the first page of the segments that is no destination; in a crash list, the
    /// first that does not hold what it is to have.
    Missing { page: Page },
    /// It is a link, destination or source word whose address is 2^46 or more.
    PastLimit,
}

impl From<WordFault> for Why {
    ghost use Rattle.list_checker.specs.inner.Items.{why_of};

    ghost from_gives = { λ fault why. why ≡ why_of fault };

    fn from(fault: WordFault) -> Why {
        match fault {
            WordFault::Flags => Why::Flags,
            WordFault::PastLimit => Why::PastLimit,
        }
    }
}

impl Display for Why {
    ghost use Rattle.std.specs.Prelude.{Some};
    ghost use Rattle.list_checker.specs.Texts.{why_text};

    ghost output = { λ why. Some (why_text why) };

    fn fmt<W: Write>(&self, f: &mut Formatter<W>) -> fmt::Result {
        let name = match self {
            Why::Missing { page } => return write!(f, "Missing {:x}", page.address()),
            Why::Flags => "Flags",
            Why::HeadKind => "HeadKind",
            Why::LinkAgain => "LinkAgain",
            Why::RunsOff => "RunsOff",
            Why::NoDestination => "NoDestination",
            Why::NotWanted => "NotWanted",
            Why::TwiceWritten => "TwiceWritten",
            Why::SourceSpoiled => "SourceSpoiled",
            Why::LinkSpoiled => "LinkSpoiled",
            Why::ControlTouched => "ControlTouched",
            Why::PairsMeet => "PairsMeet",
            Why::SwapTouched => "SwapTouched",
            Why::WrongBytes => "WrongBytes",
            Why::PastLimit => "PastLimit",
        };
        f.write_str(name)
    }
}

/// The first word of a list that has a reason, numbered from the head, which is word 0, and the first of its reasons.
#[derive(Clone, Copy, Debug)]
pub struct ListFault {
    pub word: u64,
    pub why: Why,
}

impl Display for ListFault {
    ghost use Rattle.std.specs.Prelude.{Some};
    ghost use Rattle.list_checker.specs.Texts.{fault_text};

    ghost output = { λ fault. Some (fault_text fault) };

    fn fmt<W: Write>(&self, f: &mut Formatter<W>) -> fmt::Result {
        write!(f, "word {}: {}", self.word, self.why)
    }
}

impl std::error::Error for ListFault {}

impl ListFault {
    /// What is wrong with the word, for people: the end of a sentence that names the word and the reason.
    pub fn cause(&self) -> &'static str
        ensures { result.now ≡ cause_text self.now.why }
    {
        match self.why {
            Why::Flags => "its low twelve bits are not exactly one of the flags 1, 2, 4 and 8",
            Why::HeadKind => "a head links to a page or is done, and a crash kernel's head is done",
            Why::LinkAgain => "it links to a page that is already a link page",
            Why::RunsOff => "the last slot of a page must link on or to end the list",
            Why::NoDestination => "no destination word comes before it",
            Why::NotWanted => "its destination is no page of the segments",
            Why::TwiceWritten => "its destination was written by an earlier word",
            Why::SourceSpoiled => "its source was written by an earlier word",
            Why::LinkSpoiled => "a link page of the list is written by the list",
            Why::ControlTouched => "it names the control page or moves a page there",
            Why::PairsMeet =>
                "one of its pages is the source of an earlier word, which context preserved forbids",
            Why::SwapTouched =>
                "it names the swap page or moves a page there, or the swap page is the control page",
            Why::WrongBytes => "its source does not hold what its destination is to have",
            Why::Missing { .. } => "the list leaves this page without the bytes that it is to have",
            Why::PastLimit => "its address is not below 0x400000000000",
        }
    }
}

/// Why a list was not found to be accepted.
#[derive(Clone, Copy, Debug, Error)]
pub enum CheckFault {
    /// Want of memory.
    #[error("out of memory")]
    Memory,
    /// The list is not accepted.
    #[error("the list of page copies is not accepted, {fault}")]
    List { fault: ListFault },
}

impl From<AllocError> for CheckFault {
    ghost use Rattle.list_checker.specs.declared.fault.CheckFault.TheVariants.{Memory};

    ghost from_gives = { λ _ e. e ≡ Memory };

    fn from(_: AllocError) -> CheckFault {
        CheckFault::Memory
    }
}

impl<T: Drop> From<AllocFailed<T>> for CheckFault {
    ghost use Rattle.list_checker.specs.declared.fault.CheckFault.TheVariants.{Memory};

    ghost from_gives = { λ _ e. e ≡ Memory };

    fn from(_: AllocFailed<T>) -> CheckFault {
        CheckFault::Memory
    }
}
