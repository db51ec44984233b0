//! Why words are not those of a command.

use command_table::Argument;

/// What stood among the words, and what must stand there.
#[derive(Clone, Copy)]
pub enum Mistake<'a> {
    /// There is not enough memory to read the words.
    Memory,
    /// The command has no such option.
    Unknown(&'a str),
    /// The option is given a second time.
    Again(&'static Argument),
    /// The option must have a value, and this word stands in its place; none where no word does.
    NoValue {
        argument: &'static Argument,
        next: Option<&'a str>,
    },
    /// The option takes no value.
    HasValue(&'static Argument),
    /// A positional word is one too many.
    Surplus(&'a str),
    /// The positional word is missing.
    Missing(&'static Argument),
}
