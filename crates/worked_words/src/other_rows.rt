//! What the commands beside `boot`, `load` and `load-panic` take from their rows.

ghost use Rattle.std.specs.Prelude.{◌≡◌, ◌∷◌, Some, None, Ok, Err, codes, true, false};
ghost use Rattle.kexec_words.specs.Meaning.{with_numbers, load_names_of, load_names_in, exec_of, exec_with, exec_in, trace_with, trace_numbers_by, trace_in, migrate_of, migrate_with, migrate_in, sample_by, sample_in, boot_resident_at, boot_resident_with, resident_address_by, boot_resident_in, drill_by, drill_with, drill_in, core_by, core_with, core_in};
ghost use Rattle.command_table.specs.declared.faults.UsageWhy.TheVariants as why;
ghost use Rattle.command_table.specs.declared.faults.Which.TheVariants as which;
ghost use Rattle.worked_words.specs.Rows.{one, all_rows};

/// `check` and `dump` take a memory and a record, and refuse nothing.
pub fn record_names_in_rows()
    ensures names { load_names_of all_rows
        ≡ record { memory = codes "m"; load_record = codes "r" } }
    ensures answer { load_names_in all_rows
        ≡ Ok (record { memory = codes "m"; load_record = codes "r" }) }
{}

/// `exec`.
pub fn exec_in_rows()
    ensures parts { exec_of all_rows
        ≡ record {
          memory = codes "m";
          load_record = codes "r";
          out = codes "o";
          twice = true;
        } }
    ensures once { exec_of (one (codes "twice") (codes "false") ∷ all_rows)
        ≡ record {
          memory = codes "m";
          load_record = codes "r";
          out = codes "o";
          twice = false;
        } }
    ensures apart { exec_with
        (record { memory = codes "m"; load_record = codes "m"; out = codes "o"; twice = true })
        ≡ Ok (record {
          memory = codes "m";
          load_record = codes "m";
          out = codes "o";
          twice = true;
        }) }
    ensures memory { exec_with
        (record { memory = codes "o"; load_record = codes "r"; out = codes "o"; twice = true })
        ≡ Err why.SameName }
    ensures load_record { exec_with
        (record { memory = codes "m"; load_record = codes "o"; out = codes "o"; twice = true })
        ≡ Err why.SameName }
    ensures answer { exec_in all_rows
        ≡ Ok (record {
          memory = codes "m";
          load_record = codes "r";
          out = codes "o";
          twice = true;
        }) }
    ensures refusal { exec_in (one (codes "OUT") (codes "r") ∷ all_rows) ≡ Err why.SameName }
{}

/// `trace`.
pub fn trace_in_rows()
    ensures numbers { with_numbers (trace_numbers_by all_rows) (trace_with (codes "a") (codes "b"))
        ≡ Ok (record {
          memory = codes "a";
          out = codes "b";
          head = 0x20002;
          limit = 7;
          swap = Some 0x12000;
        }) }
    ensures same_name { with_numbers (trace_numbers_by all_rows)
        (trace_with (codes "a") (codes "a")) ≡ Err why.SameName }
    ensures wrong_number { trace_numbers_by (one (codes "LIMIT") (codes "x") ∷ all_rows)
        ≡ Err which.Limit }
    ensures answer { trace_in all_rows
        ≡ Ok (record {
          memory = codes "m";
          out = codes "o";
          head = 0x20002;
          limit = 7;
          swap = Some 0x12000;
        }) }
{}

/// `migrate` and `sample`.
pub fn migrate_and_sample_in_rows()
    ensures parts { migrate_of all_rows ≡ record { load_record = codes "r"; out = codes "o" } }
    ensures apart { migrate_with (record { load_record = codes "r"; out = codes "o" })
        ≡ Ok (record { load_record = codes "r"; out = codes "o" }) }
    ensures same_name { migrate_with (record { load_record = codes "r"; out = codes "r" })
        ≡ Err why.SameName }
    ensures migrate { migrate_in all_rows
        ≡ Ok (record { load_record = codes "r"; out = codes "o" }) }
    ensures number { sample_by all_rows ≡ Ok 10 }
    ensures sample { sample_in all_rows ≡ Ok 10 }
    ensures wrong_number { sample_in (one (codes "NUMBER") (codes "a") ∷ all_rows)
        ≡ Err (why.Number which.Number) }
{}

/// `boot-resident`.
pub fn boot_resident_in_rows()
    ensures parts { boot_resident_at (codes "m") (codes "p") (codes "o") (codes "k") (codes "q")
        (Some 9)
        ≡ Ok (record {
          memory = codes "m";
          pool = codes "p";
          out = codes "o";
          kernel = codes "k";
          pairs = codes "q";
          at = 9;
        }) }
    ensures no_address { boot_resident_at (codes "m") (codes "p") (codes "o") (codes "k")
        (codes "q") None ≡ Err why.NeedsAt }
    ensures same_name { boot_resident_with (codes "m") (codes "p") (codes "q") (codes "k")
        (codes "q") None ≡ Err why.SameName }
    ensures apart { boot_resident_with (codes "m") (codes "p") (codes "o") (codes "k") (codes "q")
        None ≡ Err why.NeedsAt }
    ensures address { resident_address_by all_rows ≡ Ok (Some 0x2000) }
    ensures wrong_address { resident_address_by (one (codes "at") (codes "x") ∷ all_rows)
        ≡ Err which.At }
    ensures answer { boot_resident_in all_rows
        ≡ Ok (record {
          memory = codes "m";
          pool = codes "p";
          out = codes "o";
          kernel = codes "k";
          pairs = codes "q";
          at = 0x2000;
        }) }
{}

/// `drill`.
pub fn drill_in_rows()
    ensures parts { drill_by (codes "m") (codes "p") (codes "o") (codes "v") (Some (codes "f"))
        ≡ Ok (record {
          memory = codes "m";
          pool = codes "p";
          out = codes "o";
          events = codes "v";
          map = codes "f";
        }) }
    ensures no_map { drill_by (codes "m") (codes "p") (codes "o") (codes "v") None
        ≡ Err why.NeedsMap }
    ensures same_name { drill_with (codes "m") (codes "p") (codes "v") (codes "v") None
        ≡ Err why.SameName }
    ensures name_of_the_map { drill_with (codes "m") (codes "p") (codes "f") (codes "v")
        (Some (codes "f")) ≡ Err why.SameName }
    ensures apart { drill_with (codes "m") (codes "p") (codes "o") (codes "v") None
        ≡ Err why.NeedsMap }
    ensures answer { drill_in all_rows
        ≡ Ok (record {
          memory = codes "m";
          pool = codes "p";
          out = codes "o";
          events = codes "v";
          map = codes "f";
        }) }
{}

/// `core`.
pub fn core_in_rows()
    ensures address { core_by all_rows ≡ Ok 8 }
    ensures wrong_address { core_by (one (codes "ADDRESS") (codes "4") ∷ all_rows)
        ≡ Err which.Address }
    ensures apart { core_with (codes "m") (codes "o") 8
        ≡ Ok (record { memory = codes "m"; out = codes "o"; address = 8 }) }
    ensures same_name { core_with (codes "m") (codes "m") 8 ≡ Err why.SameName }
    ensures answer { core_in all_rows
        ≡ Ok (record { memory = codes "m"; out = codes "o"; address = 8 }) }
    ensures number_before_name { core_in
        (one (codes "ADDRESS") (codes "4") ∷ one (codes "OUT") (codes "m") ∷ all_rows)
        ≡ Err (why.Number which.Address) }
{}
