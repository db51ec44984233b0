//! Why a file or standard output failed.

ghost use Rattle.std.specs.Prelude.{◌≡◌, IfSome, Some};
ghost use Rattle.std.specs.IoError.{error_kind};

use command_parts::Status;
use kexec_usage::Given;
use kx_edge::HostCause;
use std::fmt::{self, Display, Formatter, Write};
use std::io::ErrorKind;
use std::os::unix::fs::MetadataExt;
use std::rt::Files;
use std::{fs, io};

/// What the edge keeps of the call that failed.
#[derive(Clone, Copy)]
pub enum Failure {
    /// A file was not read, or not written.
    File { cause: HostCause },
    /// Standard output took not all of the text.
    Output { error: io::Error },
    /// Nobody reads standard output any more: the other end of the pipe is closed, as `head` does it.
    ClosedPipe,
}

impl Failure {
    // A failure of standard output.
    fn of_output(error: io::Error) -> Failure
        ensures { result ≡ Failure.ClosedPipe → error_kind error ≡ ErrorKind.BrokenPipe }
    {
        match error.kind() {
            ErrorKind::BrokenPipe => Failure::ClosedPipe,
            _ => Failure::Output { error },
        }
    }

    /// What the shelf and the sink keep: the shelf's, where both do.
    pub fn of(file: Option<HostCause>, output: Option<io::Error>) -> Option<Failure>
        ensures closed { result ≡ Some Failure.ClosedPipe
            → IfSome output (λ e. error_kind e ≡ ErrorKind.BrokenPipe) }
    {
        match (file, output) {
            (Some(cause), _) => Some(Failure::File { cause }),
            (None, Some(error)) => Some(Failure::of_output(error)),
            (None, None) => None,
        }
    }
}

/// Why a file could not be read or written, or the text not be said.
#[derive(Clone, Copy)]
pub(crate) enum Cause<'a> {
    /// The system said this.
    System { error: io::Error },
    /// The output is a file that was read or written before: the one that this word or option gives under another name.
    SameFile { other: Option<Given<'a>> },
    /// The output is the file that standard output goes to.
    StandardOutput,
}

impl Display for Cause<'_> {
    fn fmt<W: Write>(&self, f: &mut Formatter<W>) -> fmt::Result {
        match self {
            Cause::System { error } => write!(f, "{error}"),
            Cause::SameFile { other: Some(other) } => write!(
                f,
                "it is the same file as {} {:?}; give it a file of its own",
                other.argument.name, other.text
            ),
            Cause::SameFile { other: None } => f.write_str(
                "it is the same file as another input or output; give it a file of its own",
            ),
            Cause::StandardOutput => f.write_str(
                "it is the file that standard output goes to; give it a file of its own",
            ),
        }
    }
}

// What the system tells a file by: its device, and its number there.
fn place_of<R: Files>(rt: &R, name: &str) -> Option<(u64, u64)> {
    let about = fs::metadata(rt, name).ok()?;
    Some((about.dev(), about.ino()))
}

// The first other name of the file of this name among those that are given.
fn other_name<'a, R: Files>(rt: &R, given: &[Given<'a>], name: &str) -> Option<Given<'a>> {
    let place = place_of(rt, name)?;
    for one in given {
        if one.argument.kind.is_file()
            && one.text != name
            && place_of(rt, one.text) == Some(place)
        {
            return Some(*one);
        }
    }
    None
}

// Why the shelf's last call failed.
fn file_cause<'a, R: Files>(
    rt: &R,
    given: &[Given<'a>],
    status: &Status,
    cause: HostCause,
) -> Cause<'a> {
    match (cause, status) {
        (HostCause::System { error }, _) => Cause::System { error },
        (HostCause::StandardOutput, _) => Cause::StandardOutput,
        (HostCause::KnownFile, Status::Unwritten { name, .. }) => Cause::SameFile {
            other: other_name(rt, given, name),
        },
        (HostCause::KnownFile, _) => Cause::SameFile { other: None },
    }
}

/// Why the call failed, where one did and the edge says why.
pub(crate) fn cause_of<'a, R: Files>(
    rt: &R,
    given: &[Given<'a>],
    status: &Status,
    failure: Option<Failure>,
) -> Option<Cause<'a>> {
    match failure? {
        Failure::File { cause } => Some(file_cause(rt, given, status, cause)),
        Failure::Output { error } => Some(Cause::System { error }),
        Failure::ClosedPipe => None,
    }
}
