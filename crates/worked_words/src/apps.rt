//! The parser's commands: how it takes each argument.

ghost use Rattle.std.specs.Prelude.{◌≡◌, ◌∷◌, ◌++◌, [], Some, None, codes, true, false};
ghost use Rattle.clap.specs.Words.{is_simple_and_free};
ghost use Rattle.clap.specs.declared.builder.action.ArgAction.TheVariants.{Set, Append, SetTrue};
ghost use Rattle.command_table.specs.Arguments.{flag, option, modules, exec_arguments};
ghost use Rattle.kexec_words.specs.Apps.{rule_in, rule_by, rules_of, app_with, app_taking, app_by};
ghost use Rattle.command_table.specs.declared.names.Name.TheVariants as name;
ghost use Rattle.command_table.specs.declared.table.Form.TheVariants as form;
ghost use Rattle.command_table.specs.declared.table.Kind.TheVariants as kind;
ghost use Rattle.worked_words.specs.Lines.{words};
ghost use Rattle.worked_words.specs.Tables.{rule_names_in};

/// A word that must be there is required; options have a long name; several words are appended, and a flag is set.
pub fn rules_of_forms()
    ensures word_name { (rule_in form.Word (codes "OUT")).id ≡ codes "OUT" }
    ensures word_required { (rule_in form.Word (codes "OUT")).required ≡ true }
    ensures word_positional { (rule_in form.Word (codes "OUT")).long ≡ None }
    ensures word_action { (rule_in form.Word (codes "OUT")).action ≡ Some Set }
    ensures words_required { (rule_in form.Words (codes "MODULES")).required ≡ false }
    ensures words_positional { (rule_in form.Words (codes "MODULES")).long ≡ None }
    ensures words_action { (rule_in form.Words (codes "MODULES")).action ≡ Some Append }
    ensures value_required { (rule_in form.Value (codes "at")).required ≡ false }
    ensures value_long { (rule_in form.Value (codes "at")).long ≡ Some (codes "at") }
    ensures value_action { (rule_in form.Value (codes "at")).action ≡ Some Set }
    ensures needed_required { (rule_in form.Needed (codes "at")).required ≡ false }
    ensures needed_long { (rule_in form.Needed (codes "at")).long ≡ Some (codes "at") }
    ensures needed_action { (rule_in form.Needed (codes "at")).action ≡ Some Set }
    ensures flag_required { (rule_in form.Flag (codes "twice")).required ≡ false }
    ensures flag_long { (rule_in form.Flag (codes "twice")).long ≡ Some (codes "twice") }
    ensures flag_action { (rule_in form.Flag (codes "twice")).action ≡ Some SetTrue }
    ensures no_short { (rule_in form.Flag (codes "twice")).short ≡ None }
    ensures no_default { (rule_in form.Value (codes "at")).defaults ≡ [] }
{}

/// The rule of an argument is that of its form, by its name for the parser.
pub fn rules_of_arguments()
    ensures flag { rule_by (flag (codes "twice")) ≡ rule_in form.Flag (codes "twice") }
    ensures option { rule_by (option (codes "type") (codes "TYPE") kind.Choice)
        ≡ rule_in form.Value (codes "type") }
    ensures several { rules_of (modules ∷ flag (codes "kept") ∷ [])
        ≡ rule_in form.Words (codes "MODULES") ∷ rule_in form.Flag (codes "kept") ∷ [] }
{}

/// A command of the parser has its name, its rules and no command below it, and its words begin behind its name.
pub fn command_of_the_parser()
    ensures name { (app_with (codes "exec") []).top.name ≡ codes "exec" }
    ensures no_rules { (app_with (codes "exec") []).top.rules ≡ [] }
    ensures behind_its_name { (app_with (codes "exec") []).top.no_binary_name ≡ true }
    ensures nothing_below { (app_with (codes "exec") []).subs ≡ [] }
    ensures helps { (app_with (codes "exec") []).top.disable_help_flag ≡ false }
    ensures no_version { (app_with (codes "exec") []).top.has_version ≡ false }
    ensures takes { app_taking (codes "exec") exec_arguments
        ≡ app_with (codes "exec") (rules_of exec_arguments) }
    ensures rules { rule_names_in (app_taking (codes "exec") exec_arguments).top.rules
        ≡ words (codes "MEMORY RECORD OUT twice") }
{}

/// Each command has its own name, and a rule for each of its arguments in their order.
pub fn commands_of_the_parser()
    ensures boot { (app_by name.Boot).top.name ≡ codes "boot" }
    ensures boot_rules { rule_names_in (app_by name.Boot).top.rules
        ≡ words (codes "MEMORY POOL OUT KERNEL MODULES kept below map type at entry")
        ++ words (codes "command initrd purgatory") }
    ensures load { (app_by name.Load).top.name ≡ codes "load" }
    ensures load_rules { rule_names_in (app_by name.Load).top.rules
        ≡ words (codes "MEMORY POOL OUT RECORD KERNEL MODULES kept below map type at entry")
        ++ words (codes "command initrd purgatory") }
    ensures load_panic { (app_by name.LoadPanic).top.name ≡ codes "load-panic" }
    ensures load_panic_rules { rule_names_in (app_by name.LoadPanic).top.rules
        ≡ words (codes "MEMORY OUT RECORD KERNEL map command initrd purgatory notes") }
    ensures check { (app_by name.Check).top.name ≡ codes "check" }
    ensures check_rules { rule_names_in (app_by name.Check).top.rules
        ≡ words (codes "MEMORY RECORD") }
    ensures dump { (app_by name.Dump).top.name ≡ codes "dump" }
    ensures dump_rules { rule_names_in (app_by name.Dump).top.rules
        ≡ words (codes "MEMORY RECORD") }
    ensures exec { (app_by name.Exec).top.name ≡ codes "exec" }
    ensures exec_rules { rule_names_in (app_by name.Exec).top.rules
        ≡ words (codes "MEMORY RECORD OUT twice") }
    ensures trace { (app_by name.Trace).top.name ≡ codes "trace" }
    ensures trace_rules { rule_names_in (app_by name.Trace).top.rules
        ≡ words (codes "MEMORY OUT HEAD LIMIT swap") }
    ensures migrate { (app_by name.Migrate).top.name ≡ codes "migrate" }
    ensures migrate_rules { rule_names_in (app_by name.Migrate).top.rules
        ≡ words (codes "RECORD OUT") }
    ensures sample { (app_by name.Sample).top.name ≡ codes "sample" }
    ensures sample_rules { rule_names_in (app_by name.Sample).top.rules ≡ words (codes "NUMBER") }
    ensures boot_resident { (app_by name.BootResident).top.name ≡ codes "boot-resident" }
    ensures boot_resident_rules { rule_names_in (app_by name.BootResident).top.rules
        ≡ words (codes "MEMORY POOL OUT KERNEL PAIRS at") }
    ensures drill { (app_by name.Drill).top.name ≡ codes "drill" }
    ensures drill_rules { rule_names_in (app_by name.Drill).top.rules
        ≡ words (codes "MEMORY POOL OUT EVENTS map") }
    ensures core { (app_by name.Core).top.name ≡ codes "core" }
    ensures core_rules { rule_names_in (app_by name.Core).top.rules
        ≡ words (codes "MEMORY OUT ADDRESS") }
{}

/// Each command is one of those of which the parser states which words it takes, and what it finds in them.
pub fn commands_that_are_simple()
    ensures boot { is_simple_and_free (app_by name.Boot) ≡ true }
    ensures load { is_simple_and_free (app_by name.Load) ≡ true }
    ensures load_panic { is_simple_and_free (app_by name.LoadPanic) ≡ true }
    ensures check { is_simple_and_free (app_by name.Check) ≡ true }
    ensures dump { is_simple_and_free (app_by name.Dump) ≡ true }
    ensures exec { is_simple_and_free (app_by name.Exec) ≡ true }
    ensures trace { is_simple_and_free (app_by name.Trace) ≡ true }
    ensures migrate { is_simple_and_free (app_by name.Migrate) ≡ true }
    ensures sample { is_simple_and_free (app_by name.Sample) ≡ true }
    ensures boot_resident { is_simple_and_free (app_by name.BootResident) ≡ true }
    ensures drill { is_simple_and_free (app_by name.Drill) ≡ true }
    ensures core { is_simple_and_free (app_by name.Core) ≡ true }
{}
