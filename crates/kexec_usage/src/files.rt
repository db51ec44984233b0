//! Files among the words that are given.

ghost use Rattle.std.specs.Prelude.{◌≡◌, find, map, option_map};
ghost use Rattle.kexec_usage.specs.inner.Words.{given_value};
ghost use Rattle.kexec_usage.specs.inner.Files.{is_other_with, is_written, shared_file, shared_value};

use crate::given::Given;
use command_table::Kind;

// Whether one is another file, with the text of this one.
fn is_other_with(file: &Given<'_>, one: &Given<'_>) -> bool
    ensures { result ≡ is_other_with (given_value file.now) (given_value one.now) }
{
    let is_other = one.argument.name != file.argument.name;
    let is_same = one.text == file.text;
    is_other && one.argument.kind.is_file() && is_same
}

// Another file with the text of this one.
fn other_with<'b, 'a>(given: &'b [Given<'a>], file: &Given<'a>) -> Option<&'b Given<'a>>
    ensures { option_map (λ one. given_value one.now) result
        ≡ find (is_other_with (given_value file.now)) (map given_value given.now) }
{
    given.iter().find(|one| is_other_with(file, one))
}

// Whether it is a file that is written.
fn is_written(kind: Kind) -> bool
    ensures { result ≡ is_written kind }
{
    matches!(kind, Kind::Output)
}

/// The first file that is written and has the text of another file, and that one's name.
pub(crate) fn shared_file<'a>(given: &[Given<'a>]) -> Option<(Given<'a>, &'static str)>
    ensures { option_map shared_value result ≡ shared_file (map given_value given.now) }
{
    for file in given {
        if is_written(file.argument.kind) {
            if let Some(other) = other_with(given, file) {
                return Some((*file, other.argument.name));
            }
        }
    }
    None
}
