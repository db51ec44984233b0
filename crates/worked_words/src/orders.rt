//! Command lines with two faults, and which of them is told.
#![tactic(auto, unfolding(clap::proofs::OnLiterals::clap_on_literals))]

ghost use Rattle.std.specs.Prelude.{◌≡◌, Err, codes};
ghost use Rattle.command_table.specs.declared.faults.UsageWhy.TheVariants as why;
ghost use Rattle.command_table.specs.declared.faults.Which.TheVariants as which;
ghost use Rattle.worked_words.specs.Lines.{meaning};

/// The reasons come in their order: no command, the parser, a number, modules, a name, an address, a map.
pub fn two_reasons()
    ensures command_before_parser { meaning (codes "restart --map") ≡ Err why.Command }
    ensures parser_before_number { meaning (codes "boot m p o --type x") ≡ Err why.Parse }
    ensures number_before_modules { meaning
        (codes "boot m p o k 1 2 3 4 5 6 7 8 9 10 11 12 13 --below 1")
        ≡ Err (why.Number which.Below) }
    ensures number_before_name { meaning (codes "boot m p m k --at x")
        ≡ Err (why.Number which.At) }
    ensures number_before_map { meaning (codes "boot m p o k --kept x")
        ≡ Err (why.Number which.Kept) }
    ensures modules_before_name { meaning
        (codes "boot m p m k 1 2 3 4 5 6 7 8 9 10 11 12 13 --type raw")
        ≡ Err why.TooManyModules }
    ensures name_before_address { meaning (codes "boot m p m k --type raw") ≡ Err why.SameName }
    ensures name_before_map { meaning (codes "boot m p m k") ≡ Err why.SameName }
    ensures address_before_map { meaning (codes "boot m p o k --type raw --purgatory u")
        ≡ Err why.NeedsAt }
{}

/// The numbers come in their order, in whatever order they are given.
pub fn two_numbers()
    ensures kind_before_kept { meaning (codes "boot m p o k --kept 3 --type x")
        ≡ Err (why.Number which.Type) }
    ensures kept_before_at { meaning (codes "boot m p o k --at x --kept 3")
        ≡ Err (why.Number which.Kept) }
    ensures at_before_entry { meaning (codes "boot m p o k --entry x --at x")
        ≡ Err (why.Number which.At) }
    ensures entry_before_below { meaning (codes "boot m p o k --below x --entry x")
        ≡ Err (why.Number which.Entry) }
    ensures swap_before_head { meaning (codes "trace m o x 1 --swap x")
        ≡ Err (why.Number which.Swap) }
    ensures swap_before_limit { meaning (codes "trace m o 4 x --swap x")
        ≡ Err (why.Number which.Swap) }
    ensures head_before_limit { meaning (codes "trace m o x x")
        ≡ Err (why.Number which.Head) }
{}

/// The same order in the commands that have some of the reasons.
pub fn two_reasons_of_other_commands()
    ensures load { meaning (codes "load m p o o k --type raw") ≡ Err why.SameName }
    ensures load_panic { meaning (codes "load-panic m m r k") ≡ Err why.SameName }
    ensures exec { meaning (codes "exec m m m --once") ≡ Err why.Parse }
    ensures trace { meaning (codes "trace m m 4 x") ≡ Err (why.Number which.Limit) }
    ensures migrate { meaning (codes "migrate r r r") ≡ Err why.Parse }
    ensures resident_number { meaning (codes "boot-resident m p m k q --at x")
        ≡ Err (why.Number which.At) }
    ensures resident_name { meaning (codes "boot-resident m p m k q") ≡ Err why.SameName }
    ensures drill { meaning (codes "drill m p m v") ≡ Err why.SameName }
    ensures core { meaning (codes "core m m 4") ≡ Err (why.Number which.Address) }
{}
