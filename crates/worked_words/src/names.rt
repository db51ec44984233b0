//! Names of files, and which of them an output may not have; names of commands.

ghost use Rattle.std.specs.Prelude.{◌≡◌, [], Some, None, codes, true, false};
ghost use Rattle.kexec_words.specs.Meaning.{is_among, has_same_name, with_name, files_of, crash_files_of};
ghost use Rattle.command_table.specs.Names.{name_of};
ghost use Rattle.command_table.specs.declared.names.Name.TheVariants as name;
ghost use Rattle.worked_words.specs.Lines.{words};
ghost use Rattle.worked_words.specs.Values.{bare_inputs, inputs, all_inputs, crash_inputs, all_crash_inputs};

/// A name is among others where it is one of them, in whole and in the same case.
pub fn names_among_others()
    ensures first { is_among (codes "ab") (words (codes "ab c d")) ≡ true }
    ensures last { is_among (codes "d") (words (codes "ab c d")) ≡ true }
    ensures part { is_among (codes "a") (words (codes "ab c d")) ≡ false }
    ensures more { is_among (codes "abc") (words (codes "ab c d")) ≡ false }
    ensures other_case { is_among (codes "C") (words (codes "ab c d")) ≡ false }
    ensures none { is_among (codes "ab") [] ≡ false }
{}

/// An output has the name of no input and of no other output; inputs may have one name.
pub fn outputs_with_the_same_name()
    ensures apart { has_same_name (words (codes "o r")) (words (codes "m p k")) ≡ false }
    ensures first_output { has_same_name (words (codes "p r")) (words (codes "m p k")) ≡ true }
    ensures second_output { has_same_name (words (codes "o k")) (words (codes "m p k")) ≡ true }
    ensures both_outputs { has_same_name (words (codes "o o")) (words (codes "m p k")) ≡ true }
    ensures both_inputs { has_same_name (words (codes "o r")) (words (codes "m m m")) ≡ false }
    ensures one_output { has_same_name (words (codes "o")) (words (codes "m p k")) ≡ false }
    ensures no_output { has_same_name [] (words (codes "m p k")) ≡ false }
{}

/// A name that is given stands before the others.
pub fn name_before_others()
    ensures present { with_name (Some (codes "f")) (words (codes "k i")) ≡ words (codes "f k i") }
    ensures absent { with_name None (words (codes "k i")) ≡ words (codes "k i") }
{}

/// The files that `boot` and `load` read, in their order; the kernel's command line is no file.
pub fn files_that_are_read()
    ensures bare { files_of bare_inputs ≡ words (codes "m p k") }
    ensures map { files_of inputs ≡ words (codes "m p f k") }
    ensures all { files_of all_inputs ≡ words (codes "m p f k i u x y") }
{}

/// The files that `load-panic` reads, in their order.
pub fn files_of_a_crash_load()
    ensures bare { crash_files_of crash_inputs None ≡ words (codes "m k") }
    ensures map { crash_files_of crash_inputs (Some (codes "f")) ≡ words (codes "m f k") }
    ensures all { crash_files_of all_crash_inputs (Some (codes "f"))
        ≡ words (codes "m f n k i u") }
{}

/// The twelve commands have these names, and no other text names one.
pub fn names_of_commands()
    ensures boot { name_of (codes "boot") ≡ Some name.Boot }
    ensures load { name_of (codes "load") ≡ Some name.Load }
    ensures load_panic { name_of (codes "load-panic") ≡ Some name.LoadPanic }
    ensures check { name_of (codes "check") ≡ Some name.Check }
    ensures dump { name_of (codes "dump") ≡ Some name.Dump }
    ensures exec { name_of (codes "exec") ≡ Some name.Exec }
    ensures trace { name_of (codes "trace") ≡ Some name.Trace }
    ensures migrate { name_of (codes "migrate") ≡ Some name.Migrate }
    ensures sample { name_of (codes "sample") ≡ Some name.Sample }
    ensures boot_resident { name_of (codes "boot-resident") ≡ Some name.BootResident }
    ensures drill { name_of (codes "drill") ≡ Some name.Drill }
    ensures core { name_of (codes "core") ≡ Some name.Core }
    ensures empty { name_of (codes "") ≡ None }
    ensures capital { name_of (codes "Boot") ≡ None }
    ensures part { name_of (codes "load-") ≡ None }
    ensures other_hyphen { name_of (codes "load_panic") ≡ None }
    ensures help { name_of (codes "help") ≡ None }
{}
