//! Arguments: how each kind of them is written, and which a command has.

ghost use Rattle.std.specs.Prelude.{◌≡◌, ◌∷◌, ◌++◌, [], codes};
ghost use Rattle.command_table.specs.Arguments.{word, option, needed_option, flag, input, output, file, address, needed_map, modules, plan_options, boot_arguments, load_arguments, load_panic_arguments, loaded_arguments, exec_arguments, trace_arguments, migrate_arguments, sample_arguments, boot_resident_arguments, drill_arguments, core_arguments};
ghost use Rattle.command_table.specs.declared.table.Form.TheVariants as form;
ghost use Rattle.command_table.specs.declared.table.Kind.TheVariants as kind;
ghost use Rattle.worked_words.specs.Lines.{words};
ghost use Rattle.worked_words.specs.Tables.{names_in, ids_in, values_in, forms_in, kinds_in};

/// Positional words have their own name, and no name of a value.
pub fn words_of_the_table()
    ensures word { word (codes "LIMIT") kind.Count
        ≡ record {
          id = codes "LIMIT";
          name = codes "LIMIT";
          value = [];
          form = form.Word;
          kind = kind.Count;
        } }
    ensures input { input (codes "POOL")
        ≡ record {
          id = codes "POOL";
          name = codes "POOL";
          value = [];
          form = form.Word;
          kind = kind.Input;
        } }
    ensures output { output (codes "OUT")
        ≡ record {
          id = codes "OUT";
          name = codes "OUT";
          value = [];
          form = form.Word;
          kind = kind.Output;
        } }
    ensures modules { modules
        ≡ record {
          id = codes "MODULES";
          name = codes "MODULES";
          value = [];
          form = form.Words;
          kind = kind.Input;
        } }
{}

/// Options have two hyphens before their name for people, and the name of their value.
pub fn options_of_the_table()
    ensures option { option (codes "command") (codes "TEXT") kind.Text
        ≡ record {
          id = codes "command";
          name = codes "--command";
          value = codes "TEXT";
          form = form.Value;
          kind = kind.Text;
        } }
    ensures needed { needed_option (codes "at") (codes "ADDRESS") kind.Address
        ≡ record {
          id = codes "at";
          name = codes "--at";
          value = codes "ADDRESS";
          form = form.Needed;
          kind = kind.Address;
        } }
    ensures flag { flag (codes "twice")
        ≡ record {
          id = codes "twice";
          name = codes "--twice";
          value = [];
          form = form.Flag;
          kind = kind.Presence;
        } }
    ensures file { file (codes "initrd")
        ≡ record {
          id = codes "initrd";
          name = codes "--initrd";
          value = codes "FILE";
          form = form.Value;
          kind = kind.Input;
        } }
    ensures address { address (codes "swap")
        ≡ record {
          id = codes "swap";
          name = codes "--swap";
          value = codes "ADDRESS";
          form = form.Value;
          kind = kind.Address;
        } }
    ensures map { needed_map
        ≡ record {
          id = codes "map";
          name = codes "--map";
          value = codes "FILE";
          form = form.Needed;
          kind = kind.Input;
        } }
{}

/// Which arguments a command has, in the order of its synopsis.
pub fn arguments_of_commands()
    ensures boot { names_in boot_arguments
        ≡ words (codes "MEMORY POOL OUT KERNEL MODULES --kept")
        ++ words (codes "--below --map --type --at --entry --command --initrd --purgatory") }
    ensures load { names_in load_arguments
        ≡ words (codes "MEMORY POOL OUT RECORD KERNEL MODULES --kept")
        ++ words (codes "--below --map --type --at --entry --command --initrd --purgatory") }
    ensures load_panic { names_in load_panic_arguments
        ≡ words (codes "MEMORY OUT RECORD KERNEL --map --command --initrd --purgatory --notes") }
    ensures check_and_dump { names_in loaded_arguments ≡ words (codes "MEMORY RECORD") }
    ensures exec { names_in exec_arguments ≡ words (codes "MEMORY RECORD OUT --twice") }
    ensures trace { names_in trace_arguments ≡ words (codes "MEMORY OUT HEAD LIMIT --swap") }
    ensures migrate { names_in migrate_arguments ≡ words (codes "RECORD OUT") }
    ensures sample { names_in sample_arguments ≡ words (codes "NUMBER") }
    ensures boot_resident { names_in boot_resident_arguments
        ≡ words (codes "MEMORY POOL OUT KERNEL PAIRS --at") }
    ensures drill { names_in drill_arguments ≡ words (codes "MEMORY POOL OUT EVENTS --map") }
    ensures core { names_in core_arguments ≡ words (codes "MEMORY OUT ADDRESS") }
{}

/// The names by which the parser knows them have no hyphens before them.
pub fn names_for_the_parser()
    ensures plan { ids_in plan_options
        ≡ words (codes "below map type at entry command initrd purgatory") }
    ensures load_panic { ids_in load_panic_arguments
        ≡ words (codes "MEMORY OUT RECORD KERNEL map command initrd purgatory notes") }
    ensures trace { ids_in trace_arguments ≡ words (codes "MEMORY OUT HEAD LIMIT swap") }
{}

/// How the arguments of each command are given: words that must be there, words of which there may be any number,
/// options with a value, those without which the command is refused, and flags.
pub fn forms_of_arguments()
    ensures boot { forms_in boot_arguments
        ≡ form.Word ∷ form.Word ∷ form.Word ∷ form.Word ∷ form.Words ∷ form.Value
        ∷ forms_in plan_options }
    ensures load { forms_in load_arguments
        ≡ form.Word ∷ form.Word ∷ form.Word ∷ form.Word ∷ form.Word ∷ form.Words ∷ form.Flag
        ∷ forms_in plan_options }
    ensures plan { forms_in plan_options
        ≡ form.Value ∷ form.Value ∷ form.Value ∷ form.Value ∷ form.Value ∷ form.Value
        ∷ form.Value ∷ form.Value ∷ [] }
    ensures load_panic { forms_in load_panic_arguments
        ≡ form.Word ∷ form.Word ∷ form.Word ∷ form.Word ∷ form.Needed ∷ form.Value ∷ form.Value
        ∷ form.Value ∷ form.Value ∷ [] }
    ensures check_and_dump { forms_in loaded_arguments ≡ form.Word ∷ form.Word ∷ [] }
    ensures exec { forms_in exec_arguments
        ≡ form.Word ∷ form.Word ∷ form.Word ∷ form.Flag ∷ [] }
    ensures trace { forms_in trace_arguments
        ≡ form.Word ∷ form.Word ∷ form.Word ∷ form.Word ∷ form.Value ∷ [] }
    ensures migrate { forms_in migrate_arguments ≡ form.Word ∷ form.Word ∷ [] }
    ensures sample { forms_in sample_arguments ≡ form.Word ∷ [] }
    ensures boot_resident { forms_in boot_resident_arguments
        ≡ form.Word ∷ form.Word ∷ form.Word ∷ form.Word ∷ form.Word ∷ form.Needed ∷ [] }
    ensures drill { forms_in drill_arguments
        ≡ form.Word ∷ form.Word ∷ form.Word ∷ form.Word ∷ form.Needed ∷ [] }
    ensures core { forms_in core_arguments ≡ form.Word ∷ form.Word ∷ form.Word ∷ [] }
{}

/// What the arguments of each command are: files that are read or written, numbers, texts and choices.
pub fn kinds_of_arguments()
    ensures boot { kinds_in boot_arguments
        ≡ kind.Input ∷ kind.Input ∷ kind.Output ∷ kind.Input ∷ kind.Input ∷ kind.Choice
        ∷ kinds_in plan_options }
    ensures load { kinds_in load_arguments
        ≡ kind.Input ∷ kind.Input ∷ kind.Output ∷ kind.Output ∷ kind.Input ∷ kind.Input
        ∷ kind.Presence ∷ kinds_in plan_options }
    ensures plan { kinds_in plan_options
        ≡ kind.Address ∷ kind.Input ∷ kind.Choice ∷ kind.Address ∷ kind.Address ∷ kind.Text
        ∷ kind.Input ∷ kind.Input ∷ [] }
    ensures load_panic { kinds_in load_panic_arguments
        ≡ kind.Input ∷ kind.Output ∷ kind.Output ∷ kind.Input ∷ kind.Input ∷ kind.Text
        ∷ kind.Input ∷ kind.Input ∷ kind.Input ∷ [] }
    ensures check_and_dump { kinds_in loaded_arguments ≡ kind.Input ∷ kind.Input ∷ [] }
    ensures exec { kinds_in exec_arguments
        ≡ kind.Input ∷ kind.Input ∷ kind.Output ∷ kind.Presence ∷ [] }
    ensures trace { kinds_in trace_arguments
        ≡ kind.Input ∷ kind.Output ∷ kind.ListWord ∷ kind.Count ∷ kind.Address ∷ [] }
    ensures migrate { kinds_in migrate_arguments ≡ kind.Input ∷ kind.Output ∷ [] }
    ensures sample { kinds_in sample_arguments ≡ kind.Count ∷ [] }
    ensures boot_resident { kinds_in boot_resident_arguments
        ≡ kind.Input ∷ kind.Input ∷ kind.Output ∷ kind.Input ∷ kind.Input ∷ kind.Address ∷ [] }
    ensures drill { kinds_in drill_arguments
        ≡ kind.Input ∷ kind.Input ∷ kind.Output ∷ kind.Input ∷ kind.Input ∷ [] }
    ensures core { kinds_in core_arguments ≡ kind.Input ∷ kind.Output ∷ kind.Address ∷ [] }
{}

/// What the values of options are called.
pub fn values_of_options()
    ensures plan { values_in plan_options
        ≡ words (codes "ADDRESS FILE TYPE ADDRESS ADDRESS TEXT FILE FILE") }
    ensures boot { values_in boot_arguments
        ≡ [] ∷ [] ∷ [] ∷ [] ∷ [] ∷ codes "RUNS" ∷ values_in plan_options }
    ensures load { values_in load_arguments
        ≡ [] ∷ [] ∷ [] ∷ [] ∷ [] ∷ [] ∷ [] ∷ values_in plan_options }
    ensures load_panic { values_in load_panic_arguments
        ≡ [] ∷ [] ∷ [] ∷ [] ∷ words (codes "FILE TEXT FILE FILE FILE") }
    ensures exec { values_in exec_arguments ≡ [] ∷ [] ∷ [] ∷ [] ∷ [] }
    ensures trace { values_in trace_arguments ≡ [] ∷ [] ∷ [] ∷ [] ∷ codes "ADDRESS" ∷ [] }
    ensures boot_resident { values_in boot_resident_arguments
        ≡ [] ∷ [] ∷ [] ∷ [] ∷ [] ∷ codes "ADDRESS" ∷ [] }
    ensures drill { values_in drill_arguments ≡ [] ∷ [] ∷ [] ∷ [] ∷ codes "FILE" ∷ [] }
{}
