//! The words of the command line, as the system gives them.

use std::env::{self, Env, FillError};
use std::fmt::{self, Display, Formatter, Write};
use std::io::ErrorKind;

/// The most bytes of an argument that Linux hands to a program, the 0 behind it included: MAX_ARG_STRLEN of
/// linux/binfmts.h.
const LONGEST: usize = 131_072;

/// The most bytes of the program's name that are read: PATH_MAX of linux/limits.h.
pub const LONGEST_NAME: usize = 4096;

/// The name that is said where the system gives none that is short enough and text.
const NAME: &str = "kexec";

/// Why the system does not give the words.
#[derive(Clone, Copy, PartialEq, Eq)]
pub enum WordsError {
    /// Memory is wanting.
    Memory,
    /// An argument is not UTF-8, the first such one of this number; the program's name has number 0. None where the
    /// system does not give it a second time.
    NotText { number: Option<usize> },
}

impl Display for WordsError {
    fn fmt<W: Write>(&self, f: &mut Formatter<W>) -> fmt::Result {
        match self {
            WordsError::Memory => f.write_str(
                "there is not enough memory for the arguments: free some and try again",
            ),
            WordsError::NotText { number: Some(0) } => {
                f.write_str("the name of the program is not valid UTF-8")
            }
            WordsError::NotText {
                number: Some(number),
            } => write!(f, "argument {number} is not valid UTF-8"),
            WordsError::NotText { number: None } => f.write_str("an argument is not valid UTF-8"),
        }
    }
}

// The number of the first argument that is not UTF-8.
fn first_not_text(rt: &impl Env) -> Option<usize> {
    let mut text = [0u8; LONGEST];
    for number in 0..usize::MAX {
        match rt.arg(number, &mut text) {
            Ok(length) => {
                if str::from_utf8(&text[..length]).is_err() {
                    return Some(number);
                }
            }
            Err(FillError::TooLong) => {}
            Err(FillError::NotPresent) => return None,
        }
    }
    None
}

/// The last part of the name by which the program was called, which is laid into `room`.
pub fn name_called<'a>(rt: &impl Env, room: &'a mut [u8]) -> &'a str {
    let Ok(length) = rt.arg(0, room) else {
        return NAME;
    };
    let Ok(path) = str::from_utf8(&room[..length]) else {
        return NAME;
    };
    let name = match path.rsplit_once('/') {
        Some((_, last)) => last,
        None => path,
    };
    if name.is_empty() { NAME } else { name }
}

/// The words after the program's name.
pub fn read_words(rt: &(impl Env + AllocGlobal)) -> Result<Vec<String>, WordsError> {
    match env::args(rt) {
        Ok(words) => words
            .skip(1)
            .collect(rt.alloc())
            .or(Err(WordsError::Memory)),
        Err(error) if error.kind() == ErrorKind::InvalidData => Err(WordsError::NotText {
            number: first_not_text(rt),
        }),
        Err(_) => Err(WordsError::Memory),
    }
}
