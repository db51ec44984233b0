//! Command lines that the parser refuses, or that name no command.
#![tactic(auto, unfolding(clap::proofs::OnLiterals::clap_on_literals))]

ghost use Rattle.std.specs.Prelude.{◌≡◌, Err, codes};
ghost use Rattle.command_table.specs.declared.faults.UsageWhy.TheVariants as why;
ghost use Rattle.worked_words.specs.Lines.{meaning};

/// The first word must be the name of a command.
pub fn lines_without_a_command()
    ensures empty_word { meaning (codes "") ≡ Err why.Command }
    ensures other_word { meaning (codes "restart") ≡ Err why.Command }
    ensures help { meaning (codes "--help") ≡ Err why.Command }
    ensures option_first { meaning (codes "--twice exec m r o") ≡ Err why.Command }
    ensures capitals { meaning (codes "EXEC m r o") ≡ Err why.Command }
{}

/// A word too few.
pub fn lines_with_a_word_too_few()
    ensures boot { meaning (codes "boot m p o --map f") ≡ Err why.Parse }
    ensures load { meaning (codes "load m p o r --map f") ≡ Err why.Parse }
    ensures load_panic { meaning (codes "load-panic m o r --map f") ≡ Err why.Parse }
    ensures check { meaning (codes "check m") ≡ Err why.Parse }
    ensures dump { meaning (codes "dump m") ≡ Err why.Parse }
    ensures exec { meaning (codes "exec m r") ≡ Err why.Parse }
    ensures trace { meaning (codes "trace m o 4") ≡ Err why.Parse }
    ensures migrate { meaning (codes "migrate r") ≡ Err why.Parse }
    ensures sample { meaning (codes "sample") ≡ Err why.Parse }
    ensures boot_resident { meaning (codes "boot-resident m p o k --at 2000") ≡ Err why.Parse }
    ensures drill { meaning (codes "drill m p o --map f") ≡ Err why.Parse }
    ensures core { meaning (codes "core m o") ≡ Err why.Parse }
{}

/// A word too many: only `boot` and `load` take modules.
pub fn lines_with_a_word_too_many()
    ensures load_panic { meaning (codes "load-panic m o r k x --map f") ≡ Err why.Parse }
    ensures check { meaning (codes "check m r x") ≡ Err why.Parse }
    ensures dump { meaning (codes "dump m r x") ≡ Err why.Parse }
    ensures exec { meaning (codes "exec m r o x") ≡ Err why.Parse }
    ensures trace { meaning (codes "trace m o 4 1 x") ≡ Err why.Parse }
    ensures migrate { meaning (codes "migrate r o x") ≡ Err why.Parse }
    ensures sample { meaning (codes "sample 1 2") ≡ Err why.Parse }
    ensures boot_resident { meaning (codes "boot-resident m p o k q x --at 2000")
        ≡ Err why.Parse }
    ensures drill { meaning (codes "drill m p o v x --map f") ≡ Err why.Parse }
    ensures core { meaning (codes "core m o 8 x") ≡ Err why.Parse }
{}

/// An option that is given twice, without its value, with a value that it has not, or that there is not.
pub fn lines_with_a_wrong_option()
    ensures option_twice { meaning (codes "boot m p o k --map f --map f") ≡ Err why.Parse }
    ensures option_twice_in_two_ways { meaning (codes "boot m p o k --map f --map=f")
        ≡ Err why.Parse }
    ensures flag_twice { meaning (codes "exec m r o --twice --twice") ≡ Err why.Parse }
    ensures no_value { meaning (codes "boot m p o k --map") ≡ Err why.Parse }
    ensures option_for_a_value { meaning (codes "boot m p o k --command --map f")
        ≡ Err why.Parse }
    ensures flag_with_a_value { meaning (codes "exec m r o --twice=1") ≡ Err why.Parse }
    ensures kept_of_load_with_a_value { meaning (codes "load m p o r k --map f --kept=1")
        ≡ Err why.Parse }
    ensures kept_of_boot_without_a_value { meaning (codes "boot m p o k --map f --kept")
        ≡ Err why.Parse }
    ensures unknown { meaning (codes "boot m p o k --map f --quiet") ≡ Err why.Parse }
    ensures part_of_a_name { meaning (codes "boot m p o k --ma f") ≡ Err why.Parse }
    ensures capitals { meaning (codes "boot m p o k --MAP f") ≡ Err why.Parse }
    ensures one_hyphen { meaning (codes "boot m p o k -map f") ≡ Err why.Parse }
    ensures help { meaning (codes "check m r --help") ≡ Err why.Parse }
    ensures short_help { meaning (codes "check m r -h") ≡ Err why.Parse }
    ensures version { meaning (codes "check m r --version") ≡ Err why.Parse }
{}

/// An option of another command.
pub fn lines_with_an_option_of_another_command()
    ensures boot { meaning (codes "boot m p o k --map f --twice") ≡ Err why.Parse }
    ensures load { meaning (codes "load m p o r k --map f --notes n") ≡ Err why.Parse }
    ensures load_panic { meaning (codes "load-panic m o r k --map f --at 2000")
        ≡ Err why.Parse }
    ensures check { meaning (codes "check m r --map f") ≡ Err why.Parse }
    ensures dump { meaning (codes "dump m r --map f") ≡ Err why.Parse }
    ensures exec { meaning (codes "exec m r o --kept") ≡ Err why.Parse }
    ensures trace { meaning (codes "trace m o 4 1 --below 0") ≡ Err why.Parse }
    ensures migrate { meaning (codes "migrate r o --twice") ≡ Err why.Parse }
    ensures sample { meaning (codes "sample 1 --kept") ≡ Err why.Parse }
    ensures boot_resident { meaning (codes "boot-resident m p o k q --at 2000 --entry 2000")
        ≡ Err why.Parse }
    ensures drill { meaning (codes "drill m p o v --map f --below 0") ≡ Err why.Parse }
    ensures core { meaning (codes "core m o 8 --at 8") ≡ Err why.Parse }
{}
