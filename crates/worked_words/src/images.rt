//! The type of a kernel by its options, and why it is refused.

ghost use Rattle.std.specs.Prelude.{◌≡◌, Some, None, Ok, Err, codes, replicate, true, false, option_map};
ghost use Rattle.kexec_words.specs.Meaning.{with_numbers, image_from, image_or_refusal, image_where};
ghost use Rattle.kexec_words.specs.Numbers.{type_word_of, type_of, plan_numbers_of};
ghost use Rattle.command_table.specs.declared.faults.UsageWhy.TheVariants as why;
ghost use Rattle.kx_pages.specs.declared.image.ImageType.TheVariants as image;
ghost use Rattle.worked_words.specs.Values.{bare_inputs, inputs};

/// A raw kernel has its address, at which it is entered where no entry is given; other types have no use for them.
pub fn types_with_their_addresses()
    ensures raw { option_map (λ k. image_from k (Some 0x2000) (Some 0x2004))
        (type_word_of (codes "raw")) ≡ Some (Some (image.Raw 0x2000 0x2004)) }
    ensures raw_without_entry { option_map (λ k. image_from k (Some 0x2000) None)
        (type_word_of (codes "raw")) ≡ Some (Some (image.Raw 0x2000 0x2000)) }
    ensures raw_without_address { option_map (λ k. image_from k None (Some 0x2004))
        (type_word_of (codes "raw")) ≡ Some None }
    ensures elf { option_map (λ k. image_from k (Some 0x2000) (Some 0x2004))
        (type_word_of (codes "elf")) ≡ Some (Some image.Elf) }
    ensures bzimage { option_map (λ k. image_from k (Some 0x2000) (Some 0x2004))
        (type_word_of (codes "bzimage")) ≡ Some (Some image.Bzimage) }
    ensures multiboot { option_map (λ k. image_from k (Some 0x2000) (Some 0x2004))
        (type_word_of (codes "multiboot")) ≡ Some (Some image.Multiboot) }
    ensures auto { with_numbers (type_of None)
        (λ k. Ok (image_from k (Some 0x2000) (Some 0x2004))) ≡ Ok (Some image.Auto) }
{}

/// A map is needed for each type but raw, and for a purgatory.
pub fn types_that_need_a_map()
    ensures no_address { image_or_refusal inputs None ≡ Err why.NeedsAt }
    ensures raw { image_or_refusal bare_inputs (Some (image.Raw 0x2000 0x2004))
        ≡ Ok (image.Raw 0x2000 0x2004) }
    ensures raw_with_a_purgatory { image_or_refusal
        (record bare_inputs { purgatory = Some (codes "u") }) (Some (image.Raw 0x2000 0x2004))
        ≡ Err why.NeedsMap }
    ensures raw_with_a_purgatory_and_a_map { image_or_refusal
        (record inputs { purgatory = Some (codes "u") }) (Some (image.Raw 0x2000 0x2004))
        ≡ Ok (image.Raw 0x2000 0x2004) }
    ensures auto { image_or_refusal bare_inputs (Some image.Auto) ≡ Err why.NeedsMap }
    ensures elf { image_or_refusal bare_inputs (Some image.Elf) ≡ Err why.NeedsMap }
    ensures bzimage { image_or_refusal bare_inputs (Some image.Bzimage) ≡ Err why.NeedsMap }
    ensures multiboot { image_or_refusal bare_inputs (Some image.Multiboot) ≡ Err why.NeedsMap }
    ensures auto_with_a_map { image_or_refusal inputs (Some image.Auto) ≡ Ok image.Auto }
    ensures elf_with_a_map { image_or_refusal inputs (Some image.Elf) ≡ Ok image.Elf }
{}

/// The reasons in their order: too many modules, a name that is used twice, no address, no map.
pub fn reasons_in_their_order()
    ensures modules { with_numbers (plan_numbers_of (Some (codes "raw")) None None None None)
        (image_where (record bare_inputs { modules = replicate 13 (codes "x") }) true)
        ≡ Err why.TooManyModules }
    ensures name { with_numbers (plan_numbers_of (Some (codes "raw")) None None None None)
        (image_where (record bare_inputs { modules = replicate 12 (codes "x") }) true)
        ≡ Err why.SameName }
    ensures address { with_numbers (plan_numbers_of (Some (codes "raw")) None None None None)
        (image_where (record bare_inputs { purgatory = Some (codes "u") }) false)
        ≡ Err why.NeedsAt }
    ensures map { with_numbers
        (plan_numbers_of (Some (codes "raw")) None (Some (codes "0")) None None)
        (image_where (record bare_inputs { purgatory = Some (codes "u") }) false)
        ≡ Err why.NeedsMap }
    ensures none { with_numbers
        (plan_numbers_of (Some (codes "raw")) None (Some (codes "0")) (Some (codes "9")) None)
        (image_where inputs false) ≡ Ok (image.Raw 0 9) }
{}
