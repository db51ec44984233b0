//! Names of files, compared.

ghost use Rattle.std.specs.Prelude.{◌≡◌, option_map, string_bytes, map, [], ◌∷◌};
ghost use Rattle.kexec_words.specs.Meaning.{is_among, with_name, files_of, crash_files_of, has_same_name};
ghost use Rattle.kexec_words.specs.inner.Values.{inputs_value, crash_inputs_value};

use crate::commands::{CrashInputs, Inputs};

// Whether a name is given, and is this text.
pub(crate) fn is_given(name: &Option<String>, text: &str) -> bool
    ensures { result ≡ is_among text.now (with_name (option_map string_bytes name.now) []) }
{
    match name {
        Some(name) => name.as_str() == text,
        None => false,
    }
}

fn is_listed(names: &[String], text: &str) -> bool
    ensures { result ≡ is_among text.now (map string_bytes names.now) }
{
    names.iter().any(|name| name.as_str() == text)
}

// Whether an output has the name of an input.
pub(crate) fn is_input(inputs: &Inputs, out: &str) -> bool
    ensures { result ≡ has_same_name (out.now ∷ []) (files_of (inputs_value inputs.now)) }
{
    inputs.memory.as_str() == out
        || inputs.pool.as_str() == out
        || is_given(&inputs.map, out)
        || inputs.kernel.as_str() == out
        || is_given(&inputs.initrd, out)
        || is_given(&inputs.purgatory, out)
        || is_listed(&inputs.modules, out)
}

// Whether one of two outputs has the name of an input or of the other one.
pub(crate) fn is_repeated(inputs: &Inputs, out: &str, load_record: &str) -> bool
    ensures { result
        ≡ has_same_name (out.now ∷ load_record.now ∷ []) (files_of (inputs_value inputs.now)) }
{
    load_record == out || is_input(inputs, out) || is_input(inputs, load_record)
}

// Whether `load-panic` reads a file of this name.
fn is_read_for_crash(inputs: &CrashInputs, map: &Option<String>, text: &str) -> bool
    ensures { result
        ≡ is_among text.now
        (crash_files_of (crash_inputs_value inputs.now) (option_map string_bytes map.now)) }
{
    inputs.memory.as_str() == text
        || is_given(map, text)
        || is_given(&inputs.notes, text)
        || inputs.kernel.as_str() == text
        || is_given(&inputs.initrd, text)
        || is_given(&inputs.purgatory, text)
}

// Whether one of two outputs of `load-panic` has the name of an input or of the other one.
pub(crate) fn is_repeated_for_crash(
    inputs: &CrashInputs,
    map: &Option<String>,
    out: &str,
    load_record: &str,
) -> bool
    ensures { result
        ≡ has_same_name (out.now ∷ load_record.now ∷ [])
        (crash_files_of (crash_inputs_value inputs.now) (option_map string_bytes map.now)) }
{
    load_record == out
        || is_read_for_crash(inputs, map, out)
        || is_read_for_crash(inputs, map, load_record)
}
