//! Command lines of `boot`, and what they mean.
#![tactic(auto, unfolding(clap::proofs::OnLiterals::clap_on_literals))]

ghost use Rattle.std.specs.Prelude.{◌≡◌, ◌∷◌, ◌++◌, [], Some, None, codes};
ghost use Rattle.kexec_words.specs.declared.commands.Runs.TheVariants.{Once, Twice};
ghost use Rattle.kx_pages.specs.declared.image.ImageType.TheVariants as image;
ghost use Rattle.worked_words.specs.Lines.{meaning, words};
ghost use Rattle.worked_words.specs.Values.{bare_inputs, inputs, all_inputs, boots};

/// All options at once, with distinct values, and none but the map.
pub fn boot_with_all_options()
    ensures all { meaning (codes "boot m p o k x y --kept 2 --below 100000 --map f --type raw"
        ++ codes " --at 2000 --entry 2004 --command c --initrd i --purgatory u")
        ≡ boots all_inputs (Some Twice) (image.Raw 0x2000 0x2004) }
    ensures none { meaning (codes "boot m p o k --map f") ≡ boots inputs None image.Auto }
{}

/// Each option alone, beside the map: it changes what it is for, and nothing else.
pub fn boot_with_one_option()
    ensures kept_once { meaning (codes "boot m p o k --map f --kept 1")
        ≡ boots inputs (Some Once) image.Auto }
    ensures kept_twice { meaning (codes "boot m p o k --map f --kept 2")
        ≡ boots inputs (Some Twice) image.Auto }
    ensures below { meaning (codes "boot m p o k --map f --below 100000")
        ≡ boots (record inputs { below = Some 0x100 }) None image.Auto }
    ensures command { meaning (codes "boot m p o k --map f --command quiet")
        ≡ boots (record inputs { command = Some (codes "quiet") }) None image.Auto }
    ensures initrd { meaning (codes "boot m p o k --map f --initrd i")
        ≡ boots (record inputs { initrd = Some (codes "i") }) None image.Auto }
    ensures purgatory { meaning (codes "boot m p o k --map f --purgatory u")
        ≡ boots (record inputs { purgatory = Some (codes "u") }) None image.Auto }
    ensures module { meaning (codes "boot m p o k x --map f")
        ≡ boots (record inputs { modules = codes "x" ∷ [] }) None image.Auto }
{}

/// Each type; the addresses of a type that is not raw are read and then not used.
pub fn boot_with_a_type()
    ensures elf { meaning (codes "boot m p o k --map f --type elf") ≡ boots inputs None image.Elf }
    ensures bzimage { meaning (codes "boot m p o k --map f --type bzimage")
        ≡ boots inputs None image.Bzimage }
    ensures multiboot { meaning (codes "boot m p o k --map f --type multiboot")
        ≡ boots inputs None image.Multiboot }
    ensures unused_addresses { meaning (codes "boot m p o k --map f --at 2000 --entry 2004")
        ≡ boots inputs None image.Auto }
    ensures raw { meaning (codes "boot m p o k --type raw --at 2000")
        ≡ boots bare_inputs None (image.Raw 0x2000 0x2000) }
    ensures raw_with_an_entry { meaning (codes "boot m p o k --type raw --at 2000 --entry 2004")
        ≡ boots bare_inputs None (image.Raw 0x2000 0x2004) }
    ensures raw_with_a_map { meaning (codes "boot m p o k --type raw --at 0 --map f")
        ≡ boots inputs None (image.Raw 0 0) }
{}

/// Options may stand anywhere and have their value behind `=`; behind `--` all words are positional.
pub fn boot_in_other_orders()
    ensures options_first { meaning (codes "boot --type elf --map f m p o k")
        ≡ boots inputs None image.Elf }
    ensures options_between { meaning (codes "boot m --map f p o --type elf k")
        ≡ boots inputs None image.Elf }
    ensures behind_an_equals_sign { meaning (codes "boot m p o k --type=elf --map=f")
        ≡ boots inputs None image.Elf }
    ensures second_equals_sign { meaning (codes "boot m p o k --map f --command=a=b")
        ≡ boots (record inputs { command = Some (codes "a=b") }) None image.Auto }
    ensures empty_value { meaning (codes "boot m p o k --map f --command=")
        ≡ boots (record inputs { command = Some [] }) None image.Auto }
    ensures value_with_hyphens { meaning (codes "boot m p o k --map f --command=--at")
        ≡ boots (record inputs { command = Some (codes "--at") }) None image.Auto }
    ensures behind_two_hyphens { meaning (codes "boot --map f -- m p o k -x --at")
        ≡ boots (record inputs { modules = codes "-x" ∷ codes "--at" ∷ [] }) None image.Auto }
    ensures modules_apart { meaning (codes "boot m p o k x --map f y")
        ≡ boots (record inputs { modules = codes "x" ∷ codes "y" ∷ [] }) None image.Auto }
{}

/// Twelve modules are taken, and inputs may have one name.
pub fn boot_within_its_limits()
    ensures twelve_modules { meaning (codes "boot m p o k 1 2 3 4 5 6 7 8 9 10 11 12 --map f")
        ≡ boots (record inputs { modules = words (codes "1 2 3 4 5 6 7 8 9 10 11 12") }) None
        image.Auto }
    ensures inputs_of_one_name { meaning (codes "boot m p o k m --map f --initrd m")
        ≡ boots (record inputs { initrd = Some (codes "m"); modules = codes "m" ∷ [] }) None
        image.Auto }
    ensures output_as_the_command { meaning (codes "boot m p o k --map f --command o")
        ≡ boots (record inputs { command = Some (codes "o") }) None image.Auto }
    ensures no_limit { meaning (codes "boot m p o k --map f --below 400000000000")
        ≡ boots inputs None image.Auto }
{}
