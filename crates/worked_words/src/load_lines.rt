//! Command lines of `load` and `load-panic`, and what they mean.
#![tactic(auto, unfolding(clap::proofs::OnLiterals::clap_on_literals))]

ghost use Rattle.std.specs.Prelude.{◌≡◌, ◌∷◌, ◌++◌, [], Some, codes, true, false};
ghost use Rattle.kx_pages.specs.declared.image.ImageType.TheVariants as image;
ghost use Rattle.worked_words.specs.Lines.{meaning};
ghost use Rattle.worked_words.specs.Values.{bare_inputs, inputs, all_inputs, loads, crash_inputs, all_crash_inputs, crash_loads};

/// All options of `load` at once, with distinct values, and none but the map.
pub fn load_with_all_options()
    ensures all { meaning (codes "load m p o r k x y --kept --below 100000 --map f --type raw"
        ++ codes " --at 2000 --entry 2004 --command c --initrd i --purgatory u")
        ≡ loads all_inputs true (image.Raw 0x2000 0x2004) }
    ensures none { meaning (codes "load m p o r k --map f") ≡ loads inputs false image.Auto }
{}

/// Each option of `load` alone, beside the map. `--kept` has no value here: a word behind it is positional.
pub fn load_with_one_option()
    ensures kept { meaning (codes "load m p o r k --map f --kept") ≡ loads inputs true image.Auto }
    ensures kept_before_a_word { meaning (codes "load --kept m p o r k --map f")
        ≡ loads inputs true image.Auto }
    ensures below { meaning (codes "load m p o r k --map f --below 0")
        ≡ loads (record inputs { below = Some 0 }) false image.Auto }
    ensures command { meaning (codes "load m p o r k --map f --command quiet")
        ≡ loads (record inputs { command = Some (codes "quiet") }) false image.Auto }
    ensures initrd { meaning (codes "load m p o r k --map f --initrd i")
        ≡ loads (record inputs { initrd = Some (codes "i") }) false image.Auto }
    ensures purgatory { meaning (codes "load m p o r k --map f --purgatory u")
        ≡ loads (record inputs { purgatory = Some (codes "u") }) false image.Auto }
    ensures module { meaning (codes "load m p o r k x --map f")
        ≡ loads (record inputs { modules = codes "x" ∷ [] }) false image.Auto }
    ensures bzimage { meaning (codes "load m p o r k --map f --type bzimage")
        ≡ loads inputs false image.Bzimage }
    ensures raw { meaning (codes "load m p o r k --type raw --at 2000")
        ≡ loads bare_inputs false (image.Raw 0x2000 0x2000) }
{}

/// All options of `load-panic` at once, none but the map, and each alone beside it.
pub fn load_of_a_crash_kernel()
    ensures all { meaning (codes "load-panic m o r k --map f --command c --initrd i"
        ++ codes " --purgatory u --notes n") ≡ crash_loads all_crash_inputs }
    ensures none { meaning (codes "load-panic m o r k --map f") ≡ crash_loads crash_inputs }
    ensures command { meaning (codes "load-panic m o r k --map f --command quiet")
        ≡ crash_loads (record crash_inputs { command = Some (codes "quiet") }) }
    ensures initrd { meaning (codes "load-panic m o r k --map f --initrd i")
        ≡ crash_loads (record crash_inputs { initrd = Some (codes "i") }) }
    ensures purgatory { meaning (codes "load-panic m o r k --map f --purgatory u")
        ≡ crash_loads (record crash_inputs { purgatory = Some (codes "u") }) }
    ensures notes { meaning (codes "load-panic m o r k --map f --notes n")
        ≡ crash_loads (record crash_inputs { notes = Some (codes "n") }) }
{}
