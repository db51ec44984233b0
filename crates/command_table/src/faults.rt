//! Why words are refused.

ghost use Rattle.std.specs.Prelude.{◌≡◌};
ghost use Rattle.command_table.specs.inner.Texts.{which_text};

use crate::names::CommandNames;
use crate::options::{RUNS_WORDS, TYPE_WORDS};
use std::fmt::{self, Display, Formatter, Write};
use thiserror::Error;

/// The option or the word whose text does not have its form, in the order in which they are tried.
#[derive(Clone, Copy, Debug)]
pub enum Which {
    /// `--type`: raw, elf, bzimage or multiboot.
    Type,
    /// `--kept` of `boot`: 1 or 2.
    Kept,
    /// `--at`: 1 to 16 hexadecimal digits.
    At,
    /// `--entry`: 1 to 16 hexadecimal digits.
    Entry,
    /// `--below`: 1 to 16 hexadecimal digits, a multiple of 4,096 up to 2^46.
    Below,
    /// `--swap`: 1 to 16 hexadecimal digits, a multiple of 4,096 below 2^46.
    Swap,
    /// HEAD: 1 to 16 hexadecimal digits.
    Head,
    /// LIMIT: 1 to 9 decimal digits, at most 100,000,000.
    Limit,
    /// NUMBER: 1 to 18 decimal digits.
    Number,
    /// ADDRESS: 1 to 16 hexadecimal digits, a multiple of 8 below 2^46.
    Address,
}

/// Why words are refused, in the order in which the reasons are tried. This project's own.
#[derive(Clone, Copy, Debug, Error)]
pub enum UsageWhy {
    /// There is no word, or the first one names no command.
    #[error("the first argument must be a command: {}", CommandNames)]
    Command,
    /// The command does not take the words after it; asking for help is such a refusal.
    #[error("the command does not take the arguments after it")]
    Parse,
    /// A number or a type does not have its form.
    #[error("{which} must be {form}", form = .which.form())]
    Number { which: Which },
    /// There are more than 12 modules.
    #[error("more than 12 modules are given")]
    TooManyModules,
    /// The name of an output is the name of an input or of another output.
    #[error("an output file has the name of an input file or of the other output file")]
    SameName,
    /// `--at` is not given, and the type is raw or the command is `boot-resident`.
    #[error("--at ADDRESS is missing: a raw kernel has no address of its own")]
    NeedsAt,
    /// `--map` is not given, and the command is `load-panic` or `drill`, the type is not raw, or there is a purgatory.
    #[error("--map FILE is missing: only boot and load with --type raw and without --purgatory go without a memory map")]
    NeedsMap,
}

impl Which {
    /// Its name in the help, as `--at` or HEAD.
    pub fn name(self) -> &'static str
        ensures { result.now ≡ which_text self }
    {
        match self {
            Which::Type => "--type",
            Which::Kept => "--kept",
            Which::At => "--at",
            Which::Entry => "--entry",
            Which::Below => "--below",
            Which::Swap => "--swap",
            Which::Head => "HEAD",
            Which::Limit => "LIMIT",
            Which::Number => "NUMBER",
            Which::Address => "ADDRESS",
        }
    }

    // The form that it must have.
    fn form(self) -> &'static str {
        match self {
            Which::Type => TYPE_WORDS,
            Which::Kept => RUNS_WORDS,
            Which::At | Which::Entry | Which::Head => "a hexadecimal number of 1 to 16 digits",
            Which::Below =>
                "a hexadecimal number of 1 to 16 digits, a multiple of 0x1000 up to 0x400000000000",
            Which::Swap =>
                "a hexadecimal number of 1 to 16 digits, a multiple of 0x1000 below 0x400000000000",
            Which::Limit => "a decimal number of 1 to 9 digits, at most 100000000",
            Which::Number => "a decimal number of 1 to 18 digits",
            Which::Address =>
                "a hexadecimal number of 1 to 16 digits, a multiple of 8 below 0x400000000000",
        }
    }
}

impl Display for Which {
    ghost use Rattle.std.specs.Prelude.{Some};
    ghost use Rattle.command_table.specs.inner.Texts.{which_text};

    ghost output = { λ which. Some (which_text which) };

    fn fmt<W: Write>(&self, f: &mut Formatter<W>) -> fmt::Result {
        f.write_str(self.name())
    }
}
