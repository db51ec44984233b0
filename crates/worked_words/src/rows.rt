//! What is given for arguments.
#![tactic(auto, unfolding(clap::proofs::OnLiterals::clap_on_literals))]

ghost use Rattle.std.specs.Prelude.{◌≡◌, ◌∷◌, [], Some, None, codes, true, false};
ghost use Rattle.clap.specs.Words.{matches_of};
ghost use Rattle.command_table.specs.Arguments.{input, address, exec_arguments, boot_arguments};
ghost use Rattle.command_table.specs.declared.names.Name.TheVariants as name;
ghost use Rattle.kexec_words.specs.Apps.{app_by};
ghost use Rattle.kexec_words.specs.Given.{given_by, given_of, option_of, word_of, is_true, flag_of, words_of};
ghost use Rattle.worked_words.specs.Lines.{words};
ghost use Rattle.worked_words.specs.Rows.{row, one, rows};

/// A word is the first value of the first row of its name, and empty where there is none.
pub fn words_in_rows()
    ensures first_row { word_of (codes "OUT") rows ≡ codes "o" }
    ensures first_value { word_of (codes "MODULES") rows ≡ codes "x" }
    ensures no_value { word_of (codes "MEMORY") rows ≡ [] }
    ensures no_row { word_of (codes "POOL") rows ≡ [] }
    ensures other_case { word_of (codes "out") rows ≡ [] }
{}

/// A flag is given where its value is `true`.
pub fn flags_in_rows()
    ensures present { flag_of (codes "twice") rows ≡ true }
    ensures absent { flag_of (codes "kept") rows ≡ false }
    ensures no_row { flag_of (codes "POOL") rows ≡ false }
    ensures other_value { flag_of (codes "OUT") rows ≡ false }
    ensures none { is_true None ≡ false }
    ensures yes { is_true (Some (codes "true")) ≡ true }
    ensures capitals { is_true (Some (codes "TRUE")) ≡ false }
    ensures empty { is_true (Some (codes "")) ≡ false }
{}

/// Words are all values of the first row of their name, and none where there is no row.
pub fn several_words_in_rows()
    ensures two { words_of (codes "MODULES") rows ≡ codes "x" ∷ codes "y" ∷ [] }
    ensures first_row { words_of (codes "OUT") rows ≡ codes "o" ∷ [] }
    ensures no_value { words_of (codes "MEMORY") rows ≡ [] }
    ensures no_row { words_of (codes "POOL") rows ≡ [] }
{}

/// The value of an option is its first text, and none where it has none.
pub fn options_in_rows()
    ensures first { option_of (codes "MODULES") rows ≡ Some (codes "x") }
    ensures no_value { option_of (codes "MEMORY") rows ≡ None }
    ensures no_row { option_of (codes "POOL") rows ≡ None }
{}

/// The same in what the parser finds in the words of a command, argument by argument.
pub fn rows_of_commands()
    ensures word { given_by (matches_of (app_by name.Exec) (words (codes "m r o")))
        (input (codes "RECORD")) ≡ one (codes "RECORD") (codes "r") }
    ensures no_option { given_by (matches_of (app_by name.Boot) (words (codes "m p o k")))
        (address (codes "below")) ≡ row (codes "below") [] }
    ensures no_flag { given_of exec_arguments
        (matches_of (app_by name.Exec) (words (codes "m r o")))
        ≡ one (codes "MEMORY") (codes "m") ∷ one (codes "RECORD") (codes "r")
        ∷ one (codes "OUT") (codes "o") ∷ one (codes "twice") (codes "false") ∷ [] }
    ensures flag { flag_of (codes "twice")
        (given_of exec_arguments
        (matches_of (app_by name.Exec) (words (codes "m r o --twice")))) ≡ true }
    ensures modules { words_of (codes "MODULES")
        (given_of boot_arguments
        (matches_of (app_by name.Boot) (words (codes "m p o k x y"))))
        ≡ codes "x" ∷ codes "y" ∷ [] }
    ensures no_modules { words_of (codes "MODULES")
        (given_of boot_arguments (matches_of (app_by name.Boot) (words (codes "m p o k")))) ≡ [] }
{}
