//! Words that ask for help, or for the version.

ghost use Rattle.std.specs.Prelude.{◌≡◌, map, string_bytes};
ghost use Rattle.kexec_usage.specs.inner.Words.{has_help, is_help, has_version};

// Whether the word asks for help.
fn is_help(word: &str) -> bool
    ensures { result ≡ is_help word.now }
{
    matches!(word, "--help" | "-h")
}

/// Whether the words ask for help, by `--help` or `-h` before an argument `--`; they are refused as words that the command
/// does not take.
pub fn asks_for_help(words: &[String]) -> bool
    ensures { result ≡ has_help (map string_bytes words.now) }
{
    for word in words {
        let word = word.as_str();
        if word == "--" {
            return false;
        }
        if is_help(word) {
            return true;
        }
    }
    false
}

/// Whether the first word asks for the version, by `--version` or `-V`; it is refused, since it names no command.
pub fn asks_for_version(words: &[String]) -> bool
    ensures { result ≡ has_version (map string_bytes words.now) }
{
    let Some((first, _)) = words.split_first() else {
        return false;
    };
    let word = first.as_str();
    word == "--version" || word == "-V"
}
