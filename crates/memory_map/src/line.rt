//! Lines of a memory map.

ghost use Rattle.std.specs.Prelude.{◌≡◌, ◌≤◌, IfOk};
ghost use Rattle.memory_map.specs.Text.{without_spaces, entry_of, checked_entry};

use crate::fault::MapFault;
use crate::row::{Class, class_of};
use text_lines::{cut, number};

/// What follows the spaces at the front.
fn without_spaces(text: &[u8]) -> &[u8]
    ensures { result.now ≡ without_spaces text.now }
{
    let mut rest = text;
    while let Some((first, after)) = rest.split_first() {
        if *first != b' ' {
            return rest;
        }
        rest = after;
    }
    rest
}

/// The first and the last byte of a line, and what they are. None where the line has not the form of a map line.
#[tactic(auto, unfolding(crate::specs::Text::entry_of))]
fn entry_of(line: &[u8]) -> Option<(u64, u64, Class)>
    ensures { result ≡ entry_of line.now }
{
    let (first, rest) = match cut(without_spaces(line), b'-') {
        Some((text, rest)) => (number(text), rest),
        None => return None,
    };
    let (last, name) = match cut(rest, b' ') {
        Some((text, name)) => (number(text), name),
        None => return None,
    };
    if !name.starts_with(b": ") {
        return None;
    }
    let (_, name) = name.split_at(2);
    match (first, last) {
        (Some(first), Some(last)) => Some((first, last, class_of(name))),
        _ => None,
    }
}

/// The same for the line of this number, or its first fault.
#[tactic(auto, unfolding(crate::specs::Text::checked_entry))]
pub(crate) fn checked_entry(line: u64, text: &[u8]) -> Result<(u64, u64, Class), MapFault>
    ensures exact { result ≡ checked_entry line text.now }
    ensures order { IfOk result (λ e. e.0 ≤ e.1) }
{
    match entry_of(text) {
        None => Err(MapFault::BadLine { line }),
        Some((first, last, class)) => {
            if last < first {
                Err(MapFault::Backwards { line })
            } else {
                Ok((first, last, class))
            }
        }
    }
}
