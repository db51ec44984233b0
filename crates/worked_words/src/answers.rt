//! Answers: what is handed on, and what comes first.
#![tactic(auto, unfolding(clap::proofs::OnLiterals::clap_on_literals))]

ghost use Rattle.std.specs.Prelude.{◌≡◌, ◌∷◌, ◌++◌, [], ◌+◌, Some, None, Ok, Err, codes, false};
ghost use Rattle.clap.specs.declared.error.kind.ErrorKind.TheVariants.{UnknownArgument};
ghost use Rattle.kexec_words.specs.Given.{word_of};
ghost use Rattle.kexec_words.specs.Meaning.{with_numbers, map_answer, answer_where, answer_by, command_by_name, command_of};
ghost use Rattle.kexec_words.specs.Values.{check, dump, exec, trace, migrate, sample, boot_resident, drill, core};
ghost use Rattle.command_table.specs.declared.faults.UsageWhy.TheVariants as why;
ghost use Rattle.command_table.specs.declared.faults.Which.TheVariants as which;
ghost use Rattle.command_table.specs.declared.names.Name.TheVariants as name;
ghost use Rattle.kx_pages.specs.declared.image.ImageType.TheVariants as image;
ghost use Rattle.worked_words.specs.Lines.{words};
ghost use Rattle.worked_words.specs.Values.{inputs, boots, loads, crash_inputs, crash_loads};

/// What is found is handed on, and a refusal stays as it is.
pub fn answers_and_their_refusals()
    ensures number { with_numbers (Ok 7) (λ n. Ok (n + 1)) ≡ Ok 8 }
    ensures later_refusal { with_numbers (Ok 7) (λ n. map_answer (λ m. n + m) (Err why.SameName))
        ≡ Err why.SameName }
    ensures no_number { with_numbers (Err which.Head) (λ n. Ok (n + 1))
        ≡ Err (why.Number which.Head) }
    ensures answer { map_answer (λ n. n + 1) (Ok 7) ≡ Ok 8 }
    ensures refusal { map_answer (λ n. n + 1) (Err why.NeedsAt) ≡ Err why.NeedsAt }
{}

/// What the parser refuses is refused for this alone, whatever else the words would say.
pub fn refusals_of_the_parser()
    ensures no_fault { answer_where [] (Ok (codes "r")) ≡ Ok (codes "r") }
    ensures other_refusal { answer_where [] (map_answer (λ n. n + 1) (Err why.NeedsMap))
        ≡ Err why.NeedsMap }
    ensures fault { answer_where (UnknownArgument ∷ []) (Ok (codes "r")) ≡ Err why.Parse }
    ensures fault_before_another { answer_where (UnknownArgument ∷ [])
        (map_answer (λ n. n + 1) (Err why.NeedsMap)) ≡ Err why.Parse }
    ensures words { answer_by name.Check (λ given. Ok (word_of (codes "RECORD") given))
        (words (codes "m r")) ≡ Ok (codes "r") }
    ensures too_few { answer_by name.Check (λ given. Ok (word_of (codes "RECORD") given))
        (words (codes "m")) ≡ Err why.Parse }
{}

/// Each name has its own command behind it, with what this says of the words.
pub fn words_behind_a_name()
    ensures boot { command_by_name (Some name.Boot) (words (codes "m p o k --map f"))
        ≡ boots inputs None image.Auto }
    ensures load { command_by_name (Some name.Load) (words (codes "m p o r k --map f"))
        ≡ loads inputs false image.Auto }
    ensures load_panic { command_by_name (Some name.LoadPanic) (words (codes "m o r k --map f"))
        ≡ crash_loads crash_inputs }
    ensures check { command_by_name (Some name.Check) (words (codes "m r"))
        ≡ Ok (check (record { memory = codes "m"; load_record = codes "r" })) }
    ensures dump { command_by_name (Some name.Dump) (words (codes "m r"))
        ≡ Ok (dump (record { memory = codes "m"; load_record = codes "r" })) }
    ensures exec { command_by_name (Some name.Exec) (words (codes "m r o"))
        ≡ Ok (exec (record {
          memory = codes "m";
          load_record = codes "r";
          out = codes "o";
          twice = false;
        })) }
    ensures trace { command_by_name (Some name.Trace) (words (codes "m o 4 1"))
        ≡ Ok (trace (record {
          memory = codes "m";
          out = codes "o";
          head = 4;
          limit = 1;
          swap = None;
        })) }
    ensures migrate { command_by_name (Some name.Migrate) (words (codes "r o"))
        ≡ Ok (migrate (record { load_record = codes "r"; out = codes "o" })) }
    ensures sample { command_by_name (Some name.Sample) (words (codes "7")) ≡ Ok (sample 7) }
    ensures boot_resident { command_by_name (Some name.BootResident)
        (words (codes "m p o k q --at 2000"))
        ≡ Ok (boot_resident (record {
          memory = codes "m";
          pool = codes "p";
          out = codes "o";
          kernel = codes "k";
          pairs = codes "q";
          at = 0x2000;
        })) }
    ensures drill { command_by_name (Some name.Drill) (words (codes "m p o v --map f"))
        ≡ Ok (drill (record {
          memory = codes "m";
          pool = codes "p";
          out = codes "o";
          events = codes "v";
          map = codes "f";
        })) }
    ensures core { command_by_name (Some name.Core) (words (codes "m o 8"))
        ≡ Ok (core (record { memory = codes "m"; out = codes "o"; address = 8 })) }
    ensures no_name { command_by_name None (words (codes "m r")) ≡ Err why.Command }
{}

/// The first word is the name; a word is taken as it is, with its spaces and a single hyphen.
pub fn words_of_a_command()
    ensures name { command_of (codes "check" ∷ codes "m" ∷ codes "r" ∷ [])
        ≡ Ok (check (record { memory = codes "m"; load_record = codes "r" })) }
    ensures no_word { command_of [] ≡ Err why.Command }
    ensures no_name { command_of (codes "m" ∷ codes "check" ∷ codes "r" ∷ []) ≡ Err why.Command }
    ensures one_word { command_of (codes "check m r" ∷ []) ≡ Err why.Command }
    ensures spaces { command_of (codes "dump" ∷ codes "my memory" ∷ codes "r 2" ∷ [])
        ≡ Ok (dump (record { memory = codes "my memory"; load_record = codes "r 2" })) }
    ensures hyphen { command_of (codes "dump" ∷ codes "-" ∷ codes "r" ∷ [])
        ≡ Ok (dump (record { memory = codes "-"; load_record = codes "r" })) }
    ensures command_line { command_of
        (words (codes "boot m p o k --map f --command") ++ codes "root=/dev/sda1 quiet" ∷ [])
        ≡ boots (record inputs { command = Some (codes "root=/dev/sda1 quiet") }) None image.Auto }
{}
