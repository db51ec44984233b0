//! Checking a crash list.

ghost use Rattle.std.specs.Prelude.{◌≡◌, IfOk, IfErr, None, Some, []};
ghost use Rattle.page_memory.specs.Contents.{at};
ghost use Rattle.segments.specs.Values.{want, pages};
ghost use Rattle.segments.specs.inner.Rules.{IsBare};
ghost use Rattle.kx_pages.specs.Items.{decode};
ghost use Rattle.list_checker.specs.Crash.{AcceptedCrash, crash_reason};

use crate::fault::{ListFault, Why};
use crate::missing::first_lacking;
use kx_pages::Item;
use page_memory::Memory;
use segments::Segments;

/// Why the head of a crash list is no done word, if it is none: the fault of a crash list without segments.
pub fn head_reason(head: u64) -> Option<Why>
    ensures { result ≡ crash_reason (λ p. []) (λ p. None) [] (decode head) }
{
    match Item::of_word(head) {
        Ok(Item::Done(_)) => None,
        Ok(_) => Some(Why::HeadKind),
        Err(fault) => Some(Why::from(fault)),
    }
}

// Why a crash list is refused, if it is.
fn crash_refusal(memory: &Memory, head: u64, segments: &Segments) -> Option<Why>
    ensures value { result ≡ crash_reason (at memory.now) (want segments.now) (pages segments.now)
        (decode head) }
    ensures valid { IsBare segments.now }
{
    // for its clause: what every value of the type keeps
    let _known = segments.count();
    match head_reason(head) {
        Some(why) => Some(why),
        None => match first_lacking(memory, segments) {
            Some(page) => Some(Why::Missing { page }),
            None => None,
        },
    }
}

/// Whether the crash list with this head is accepted: the head is a done word, and each page of the segments holds what
/// it is to have. Otherwise its fault, which is at word 0. It takes no memory.
pub fn check_crash(memory: &Memory, head: u64, segments: &Segments) -> Result<(), ListFault>
    ensures accepted { IfOk result (λ _. AcceptedCrash (at memory.now) (want segments.now) head) }
    ensures fault { IfErr result (λ f.
        (f.word ≡ 0) ×
        (crash_reason (at memory.now) (want segments.now) (pages segments.now)
        (decode head) ≡ Some f.why)) }
    ensures refused { IfErr result (λ f.
        AcceptedCrash (at memory.now) (want segments.now) head → ⊥) }
{
    match crash_refusal(memory, head, segments) {
        None => Ok(()),
        Some(why) => Err(ListFault { word: 0, why }),
    }
}
