//! What a test needs: words, and how a command with them ends.

use command_parts::Status;
use kexec_report::{Ending, Failure};
use std::alloc::{AllocError, Global};
use std::test::Fail;

/// The words of a line, with one space between them.
pub(crate) fn words_of(alloc: Global, line: &str) -> Result<Vec<String>, AllocError> {
    let mut words = Vec::new(alloc);
    for word in line.split(' ') {
        words.push(String::from_str(alloc, word)?)?;
    }
    Ok(words)
}

/// Whether a command with these words that ended so ends with this exit status and this sentence: none where it is empty.
pub(crate) fn is_told(
    rt: &HostRuntime,
    line: &str,
    status: &Status,
    failure: Option<Failure>,
    (code, wanted): (u8, &str),
) -> Result<bool, Fail> {
    let words = words_of(rt.alloc(), line)?;
    let ending = Ending::of(rt, "kexec", &words, status, failure);
    let is_said = match &ending.notice {
        None => wanted.is_empty(),
        Some(notice) => notice.to_string(rt.alloc())?.as_str() == wanted,
    };
    Ok(ending.code == code && is_said)
}
