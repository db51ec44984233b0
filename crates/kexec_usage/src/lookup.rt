//! Arguments in the table of a command.

ghost use Rattle.std.specs.Prelude.{◌≡◌, option_map};
ghost use Rattle.command_table.specs.inner.Table.{argument_value, argument_values};
ghost use Rattle.kexec_usage.specs.inner.Reading.{option_in, is_repeated, next_word, next_value};

use command_table::{Argument, Form};

/// Whether a word of this form may be given several times.
pub(crate) fn is_repeated(form: Form) -> bool
    ensures { result ≡ is_repeated form }
{
    matches!(form, Form::Words)
}

/// The option of this name.
pub(crate) fn option_in(arguments: &'static [Argument], name: &str) -> Option<&'static Argument>
    ensures { option_map (λ a. argument_value a.now) result
        ≡ option_in (argument_values arguments.now) name.now }
{
    arguments.iter().find(|argument| argument.form.is_option() && argument.name == name)
}

/// The first positional word, and the arguments that are left behind it: itself too where it may be given several times.
pub(crate) fn next_word(
    arguments: &'static [Argument],
) -> Option<(&'static Argument, &'static [Argument])>
    ensures { option_map next_value result ≡ next_word (argument_values arguments.now) }
{
    let (first, rest) = arguments.split_first()?;
    if first.form.is_option() {
        return next_word(rest);
    }
    if is_repeated(first.form) {
        return Some((first, arguments));
    }
    Some((first, rest))
}
