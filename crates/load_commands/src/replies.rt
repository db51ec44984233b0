//! The replies of `drill` as lines.

ghost use Rattle.std.specs.Prelude.{◌≡◌, ◌++◌, IfOk, codes, decimal, string_bytes};
ghost use Rattle.load_commands.specs.Replies.{reply_line, reply_lines, segments_fault};

use image_slots::Reply;
use segments::SegFault;
use std::alloc::{AllocError, Global};

// The name of a fault of segments.
fn segments_fault(fault: SegFault) -> &'static str
    ensures { result.now ≡ segments_fault fault }
{
    match fault {
        SegFault::Memory => "Memory",
        SegFault::NoSegments => "NoSegments",
        SegFault::TooMany => "TooMany",
        SegFault::BadAddress { .. } => "BadAddress",
        SegFault::Overlap { .. } => "Overlap",
        SegFault::TooFull { .. } => "TooFull",
        SegFault::HalfOfMemory => "HalfOfMemory",
        SegFault::OutsideReserved { .. } => "OutsideReserved",
        SegFault::NotRam { .. } => "NotRam",
        SegFault::TooLarge { .. } => "TooLarge",
    }
}

// The line of a reply that is a name alone.
fn named_line(alloc: Global, number: usize, name: &str) -> Result<String, AllocError>
    ensures { IfOk result (λ s. string_bytes s
        ≡ decimal number ++ (codes " " ++ (name.now ++ codes "\n"))) }
{
    format!(in alloc; "{number} {name}\n")
}

// The line of the reply to the event of this number.
#[tactic(auto, unfolding(crate::specs::Replies::reply_line))]
fn reply_line(alloc: Global, number: usize, reply: Reply) -> Result<String, AllocError>
    ensures { IfOk result (λ s. string_bytes s ≡ reply_line number reply) }
{
    match reply {
        Reply::Memory => named_line(alloc, number, "memory"),
        Reply::Done => named_line(alloc, number, "done"),
        Reply::Gone => named_line(alloc, number, "gone"),
        Reply::Busy { caller } => format!(in alloc; "{number} busy {caller}\n"),
        Reply::Opened => named_line(alloc, number, "opened"),
        Reply::NoArea => named_line(alloc, number, "no-area"),
        Reply::NotOpen => named_line(alloc, number, "not-open"),
        Reply::Written => named_line(alloc, number, "written"),
        Reply::NotWritten => named_line(alloc, number, "not-written"),
        Reply::BadSegments { fault } => {
            format!(in alloc; "{number} segments {}\n", segments_fault(fault))
        }
        Reply::NoPages { pool, need } => format!(in alloc; "{number} no-pages {pool} {need}\n"),
        Reply::NoImage => named_line(alloc, number, "no-image"),
        Reply::Touched { page } => format!(in alloc; "{number} touched {:x}\n", page.number()),
    }
}

/// The lines of replies, which are numbered from 1.
pub(crate) fn reply_lines(alloc: Global, replies: &[Reply]) -> Result<String, AllocError>
    ensures { IfOk result (λ s. string_bytes s ≡ reply_lines 1 replies.now) }
{
    let mut text = String::new(alloc);
    for (place, reply) in replies.iter().enumerate() {
        text.push_str(&reply_line(alloc, place + 1, *reply)?)?;
    }
    Ok(text)
}
