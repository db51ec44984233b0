//! What each command takes from its own rows, where every row has a value of its own.

ghost use Rattle.std.specs.Prelude.{◌≡◌, ◌∷◌, [], Some, None, Ok, Err, codes, true, false};
ghost use Rattle.kexec_words.specs.Meaning.{with_numbers, plan_numbers_by, inputs_of, boot_by, boot_with, boot_in, load_by, load_with, load_in, crash_inputs_of, with_map, load_panic_with, load_panic_in};
ghost use Rattle.kexec_words.specs.Numbers.{plan_numbers_of};
ghost use Rattle.kexec_words.specs.declared.commands.Runs.TheVariants.{Once, Twice};
ghost use Rattle.command_table.specs.declared.faults.UsageWhy.TheVariants as why;
ghost use Rattle.command_table.specs.declared.faults.Which.TheVariants as which;
ghost use Rattle.kx_pages.specs.declared.image.ImageType.TheVariants as image;
ghost use Rattle.worked_words.specs.Rows.{one, all_rows};
ghost use Rattle.worked_words.specs.Values.{bare_inputs, inputs, all_inputs, crash_inputs, all_crash_inputs};

/// What `boot` and `load` read.
pub fn inputs_in_rows()
    ensures all { inputs_of (Some 0x100) all_rows ≡ all_inputs }
    ensures limit_from_elsewhere { inputs_of None all_rows ≡ record all_inputs { below = None } }
    ensures no_options { inputs_of None
        (one (codes "MEMORY") (codes "m") ∷ one (codes "POOL") (codes "p")
        ∷ one (codes "KERNEL") (codes "k") ∷ []) ≡ bare_inputs }
{}

/// The numbers of a plan; the runs come from elsewhere, since `--kept` of `load` is none.
pub fn plan_numbers_in_rows()
    ensures all { with_numbers (plan_numbers_by (Some (codes "1")) all_rows)
        (boot_with inputs (codes "o"))
        ≡ Ok (record {
          inputs = inputs;
          out = codes "o";
          kept = Some Once;
          image = image.Raw 0x2000 0x2004;
        }) }
    ensures limit { with_numbers (plan_numbers_by None all_rows) (λ n. Ok n.below)
        ≡ Ok (Some 0x100) }
    ensures no_runs { with_numbers (plan_numbers_by None all_rows) (λ n. Ok n.kept) ≡ Ok None }
    ensures refusal { plan_numbers_by None (one (codes "entry") (codes "x") ∷ all_rows)
        ≡ Err which.Entry }
{}

/// `boot`: its parts, its refusals, and the whole.
pub fn boot_in_rows()
    ensures parts { with_numbers (plan_numbers_of None (Some (codes "1")) None None None)
        (λ n. Ok (boot_by inputs (codes "o") n image.Elf))
        ≡ Ok (record {
          inputs = inputs;
          out = codes "o";
          kept = Some Once;
          image = image.Elf;
        }) }
    ensures same_name { with_numbers (plan_numbers_of None None None None None)
        (boot_with inputs (codes "f")) ≡ Err why.SameName }
    ensures no_map { with_numbers (plan_numbers_of None None None None None)
        (boot_with bare_inputs (codes "o")) ≡ Err why.NeedsMap }
    ensures all { boot_in all_rows
        ≡ Ok (record {
          inputs = all_inputs;
          out = codes "o";
          kept = Some Twice;
          image = image.Raw 0x2000 0x2004;
        }) }
    ensures wrong_kept { boot_in (one (codes "kept") (codes "true") ∷ all_rows)
        ≡ Err (why.Number which.Kept) }
{}

/// `load`: its parts, its refusals, and the whole. Its `--kept` is a flag.
pub fn load_in_rows()
    ensures parts { load_by inputs (codes "o") (codes "r") true image.Elf
        ≡ record {
          inputs = inputs;
          out = codes "o";
          load_record = codes "r";
          kept = true;
          image = image.Elf;
        } }
    ensures same_name { with_numbers (plan_numbers_of None None None None None)
        (load_with inputs (codes "o") (codes "f") false) ≡ Err why.SameName }
    ensures no_map { with_numbers (plan_numbers_of None None None None None)
        (load_with bare_inputs (codes "o") (codes "r") false) ≡ Err why.NeedsMap }
    ensures all { load_in (one (codes "kept") (codes "true") ∷ all_rows)
        ≡ Ok (record {
          inputs = all_inputs;
          out = codes "o";
          load_record = codes "r";
          kept = true;
          image = image.Raw 0x2000 0x2004;
        }) }
    ensures without_kept { load_in (one (codes "kept") (codes "false") ∷ all_rows)
        ≡ Ok (record {
          inputs = all_inputs;
          out = codes "o";
          load_record = codes "r";
          kept = false;
          image = image.Raw 0x2000 0x2004;
        }) }
{}

/// `load-panic`: its parts, its refusals, and the whole.
pub fn crash_load_in_rows()
    ensures inputs { crash_inputs_of all_rows ≡ all_crash_inputs }
    ensures no_options { crash_inputs_of
        (one (codes "MEMORY") (codes "m") ∷ one (codes "KERNEL") (codes "k") ∷ [])
        ≡ crash_inputs }
    ensures map { with_map crash_inputs (codes "o") (codes "r") (Some (codes "f"))
        ≡ Ok (record {
          inputs = crash_inputs;
          map = codes "f";
          out = codes "o";
          load_record = codes "r";
        }) }
    ensures no_map { with_map crash_inputs (codes "o") (codes "r") None ≡ Err why.NeedsMap }
    ensures same_name { load_panic_with crash_inputs None (codes "o") (codes "k")
        ≡ Err why.SameName }
    ensures name_of_the_map { load_panic_with crash_inputs (Some (codes "f")) (codes "f")
        (codes "r") ≡ Err why.SameName }
    ensures apart { load_panic_with crash_inputs None (codes "o") (codes "r")
        ≡ Err why.NeedsMap }
    ensures all { load_panic_in all_rows
        ≡ Ok (record {
          inputs = all_crash_inputs;
          map = codes "f";
          out = codes "o";
          load_record = codes "r";
        }) }
{}
