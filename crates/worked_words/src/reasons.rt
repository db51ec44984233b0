//! Command lines that the parser takes, and the reasons to refuse them.
#![tactic(auto, unfolding(clap::proofs::OnLiterals::clap_on_literals))]

ghost use Rattle.std.specs.Prelude.{◌≡◌, Err, codes};
ghost use Rattle.command_table.specs.declared.faults.UsageWhy.TheVariants as why;
ghost use Rattle.command_table.specs.declared.faults.Which.TheVariants as which;
ghost use Rattle.worked_words.specs.Lines.{meaning};

/// A number or a type has not its form.
pub fn lines_with_a_wrong_number()
    ensures kind { meaning (codes "boot m p o k --map f --type auto")
        ≡ Err (why.Number which.Type) }
    ensures kept { meaning (codes "boot m p o k --map f --kept 3")
        ≡ Err (why.Number which.Kept) }
    ensures at { meaning (codes "boot m p o k --map f --at 0x2000")
        ≡ Err (why.Number which.At) }
    ensures entry { meaning (codes "boot m p o k --map f --entry=")
        ≡ Err (why.Number which.Entry) }
    ensures below { meaning (codes "boot m p o k --map f --below 100001")
        ≡ Err (why.Number which.Below) }
    ensures kind_of_load { meaning (codes "load m p o r k --map f --type auto")
        ≡ Err (why.Number which.Type) }
    ensures at_of_load { meaning (codes "load m p o r k --map f --at 0x2000")
        ≡ Err (why.Number which.At) }
    ensures entry_of_load { meaning (codes "load m p o r k --map f --entry=")
        ≡ Err (why.Number which.Entry) }
    ensures below_of_load { meaning (codes "load m p o r k --map f --below 100001")
        ≡ Err (why.Number which.Below) }
    ensures swap { meaning (codes "trace m o 4 1 --swap 800") ≡ Err (why.Number which.Swap) }
    ensures head { meaning (codes "trace m o g 1") ≡ Err (why.Number which.Head) }
    ensures limit { meaning (codes "trace m o 4 a") ≡ Err (why.Number which.Limit) }
    ensures number { meaning (codes "sample a") ≡ Err (why.Number which.Number) }
    ensures resident { meaning (codes "boot-resident m p o k q --at q")
        ≡ Err (why.Number which.At) }
    ensures headers { meaning (codes "core m o 4") ≡ Err (why.Number which.Address) }
{}

/// More than 12 modules.
pub fn lines_with_too_many_modules()
    ensures boot { meaning (codes "boot m p o k 1 2 3 4 5 6 7 8 9 10 11 12 13 --map f")
        ≡ Err why.TooManyModules }
    ensures load { meaning (codes "load m p o r k 1 2 3 4 5 6 7 8 9 10 11 12 13 --map f")
        ≡ Err why.TooManyModules }
{}

/// The output of `boot` has the name of each file that it reads in turn.
pub fn output_of_boot_is_an_input()
    ensures memory { meaning (codes "boot o p o k --map f") ≡ Err why.SameName }
    ensures pool { meaning (codes "boot m o o k --map f") ≡ Err why.SameName }
    ensures kernel { meaning (codes "boot m p o o --map f") ≡ Err why.SameName }
    ensures first_module { meaning (codes "boot m p o k o y --map f") ≡ Err why.SameName }
    ensures last_module { meaning (codes "boot m p o k x o --map f") ≡ Err why.SameName }
    ensures map { meaning (codes "boot m p o k --map o") ≡ Err why.SameName }
    ensures initrd { meaning (codes "boot m p o k --map f --initrd o") ≡ Err why.SameName }
    ensures purgatory { meaning (codes "boot m p o k --map f --purgatory o")
        ≡ Err why.SameName }
{}

/// The outputs of `load` have one name, or one of them has that of a file that is read.
pub fn outputs_of_load_are_inputs()
    ensures both { meaning (codes "load m p o o k --map f") ≡ Err why.SameName }
    ensures memory_as_out { meaning (codes "load o p o r k --map f") ≡ Err why.SameName }
    ensures memory_as_record { meaning (codes "load r p o r k --map f") ≡ Err why.SameName }
    ensures pool_as_out { meaning (codes "load m o o r k --map f") ≡ Err why.SameName }
    ensures pool_as_record { meaning (codes "load m r o r k --map f") ≡ Err why.SameName }
    ensures kernel_as_out { meaning (codes "load m p o r o --map f") ≡ Err why.SameName }
    ensures kernel_as_record { meaning (codes "load m p o r r --map f") ≡ Err why.SameName }
    ensures module_as_out { meaning (codes "load m p o r k x o --map f") ≡ Err why.SameName }
    ensures module_as_record { meaning (codes "load m p o r k r --map f") ≡ Err why.SameName }
    ensures map_as_out { meaning (codes "load m p o r k --map o") ≡ Err why.SameName }
    ensures initrd_as_record { meaning (codes "load m p o r k --map f --initrd r")
        ≡ Err why.SameName }
    ensures purgatory_as_record { meaning (codes "load m p o r k --map f --purgatory r")
        ≡ Err why.SameName }
{}

/// The same of `load-panic`, which reads notes and no pool.
pub fn outputs_of_a_crash_load_are_inputs()
    ensures both { meaning (codes "load-panic m o o k --map f") ≡ Err why.SameName }
    ensures memory_as_out { meaning (codes "load-panic o o r k --map f") ≡ Err why.SameName }
    ensures memory_as_record { meaning (codes "load-panic r o r k --map f")
        ≡ Err why.SameName }
    ensures kernel_as_record { meaning (codes "load-panic m o r r --map f")
        ≡ Err why.SameName }
    ensures map_as_out { meaning (codes "load-panic m o r k --map o") ≡ Err why.SameName }
    ensures map_as_record { meaning (codes "load-panic m o r k --map r") ≡ Err why.SameName }
    ensures notes_as_record { meaning (codes "load-panic m o r k --map f --notes r")
        ≡ Err why.SameName }
    ensures initrd_as_out { meaning (codes "load-panic m o r k --map f --initrd o")
        ≡ Err why.SameName }
    ensures purgatory_as_record { meaning (codes "load-panic m o r k --map f --purgatory r")
        ≡ Err why.SameName }
{}

/// The output of another command has the name of a file that it reads.
pub fn outputs_of_other_commands_are_inputs()
    ensures exec_memory { meaning (codes "exec o r o") ≡ Err why.SameName }
    ensures exec_record { meaning (codes "exec m o o") ≡ Err why.SameName }
    ensures trace { meaning (codes "trace o o 4 1") ≡ Err why.SameName }
    ensures migrate { meaning (codes "migrate o o") ≡ Err why.SameName }
    ensures resident_memory { meaning (codes "boot-resident o p o k q --at 2000")
        ≡ Err why.SameName }
    ensures resident_pool { meaning (codes "boot-resident m o o k q --at 2000")
        ≡ Err why.SameName }
    ensures resident_kernel { meaning (codes "boot-resident m p o o q --at 2000")
        ≡ Err why.SameName }
    ensures resident_pairs { meaning (codes "boot-resident m p o k o --at 2000")
        ≡ Err why.SameName }
    ensures drill_memory { meaning (codes "drill o p o v --map f") ≡ Err why.SameName }
    ensures drill_pool { meaning (codes "drill m o o v --map f") ≡ Err why.SameName }
    ensures drill_events { meaning (codes "drill m p o o --map f") ≡ Err why.SameName }
    ensures drill_map { meaning (codes "drill m p o v --map o") ≡ Err why.SameName }
    ensures core { meaning (codes "core o o 8") ≡ Err why.SameName }
{}

/// A raw kernel without its address, by whatever command.
pub fn lines_without_an_address()
    ensures boot { meaning (codes "boot m p o k --type raw") ≡ Err why.NeedsAt }
    ensures entry_alone { meaning (codes "boot m p o k --type raw --entry 2000")
        ≡ Err why.NeedsAt }
    ensures load { meaning (codes "load m p o r k --type raw --map f") ≡ Err why.NeedsAt }
    ensures resident { meaning (codes "boot-resident m p o k q") ≡ Err why.NeedsAt }
{}

/// No map: a type that is not raw, a purgatory, a crash kernel and a drill need one.
pub fn lines_without_a_map()
    ensures boot { meaning (codes "boot m p o k") ≡ Err why.NeedsMap }
    ensures elf { meaning (codes "boot m p o k --type elf") ≡ Err why.NeedsMap }
    ensures bzimage { meaning (codes "boot m p o k --type bzimage") ≡ Err why.NeedsMap }
    ensures multiboot { meaning (codes "boot m p o k --type multiboot") ≡ Err why.NeedsMap }
    ensures purgatory { meaning (codes "boot m p o k --type raw --at 0 --purgatory u")
        ≡ Err why.NeedsMap }
    ensures load { meaning (codes "load m p o r k") ≡ Err why.NeedsMap }
    ensures load_panic { meaning (codes "load-panic m o r k") ≡ Err why.NeedsMap }
    ensures drill { meaning (codes "drill m p o v") ≡ Err why.NeedsMap }
{}
