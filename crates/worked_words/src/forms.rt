//! What the words of options mean, and which of several is refused first.

ghost use Rattle.std.specs.Prelude.{◌≡◌, Some, None, Ok, Err, codes};
ghost use Rattle.kexec_words.specs.Meaning.{with_numbers, image_from, boot_with, trace_with};
ghost use Rattle.kexec_words.specs.Numbers.{type_word_of, runs_of, in_form, some_in_form, option_in_form, hex_of, type_of, kept_of, address_of, below_of, swap_of, head_of, limit_of, plan_numbers_of, trace_numbers_of};
ghost use Rattle.kexec_words.specs.declared.commands.Runs.TheVariants.{Once, Twice};
ghost use Rattle.command_table.specs.declared.faults.Which.TheVariants as which;
ghost use Rattle.kx_pages.specs.declared.image.ImageType.TheVariants as image;
ghost use Rattle.worked_words.specs.Values.{inputs};

/// The four types have their names, and automatic is the type that is not given.
pub fn words_of_types()
    ensures absent { with_numbers (type_of None) (λ k. Ok (image_from k None None))
        ≡ Ok (Some image.Auto) }
    ensures raw { with_numbers (type_of (Some (codes "raw"))) (λ k. Ok (image_from k (Some 1) None))
        ≡ Ok (Some (image.Raw 1 1)) }
    ensures elf { with_numbers (type_of (Some (codes "elf"))) (λ k. Ok (image_from k None None))
        ≡ Ok (Some image.Elf) }
    ensures bzimage { with_numbers (type_of (Some (codes "bzimage")))
        (λ k. Ok (image_from k None None)) ≡ Ok (Some image.Bzimage) }
    ensures multiboot { with_numbers (type_of (Some (codes "multiboot")))
        (λ k. Ok (image_from k None None)) ≡ Ok (Some image.Multiboot) }
    ensures auto { type_of (Some (codes "auto")) ≡ Err which.Type }
    ensures empty { type_of (Some (codes "")) ≡ Err which.Type }
    ensures capitals { type_word_of (codes "ELF") ≡ None }
    ensures part { type_word_of (codes "ra") ≡ None }
    ensures more { type_word_of (codes "raws") ≡ None }
{}

/// `--kept` is given 1 or 2 runs, and nothing else.
pub fn words_of_runs()
    ensures absent { kept_of None ≡ Ok None }
    ensures one { kept_of (Some (codes "1")) ≡ Ok (Some Once) }
    ensures two { kept_of (Some (codes "2")) ≡ Ok (Some Twice) }
    ensures three { kept_of (Some (codes "3")) ≡ Err which.Kept }
    ensures zero { kept_of (Some (codes "0")) ≡ Err which.Kept }
    ensures leading_zero { runs_of (codes "01") ≡ None }
    ensures empty { runs_of (codes "") ≡ None }
{}

/// An option that is not given has its form, and one that is given has it where its text does; else it is named.
pub fn options_and_their_forms()
    ensures word { in_form which.Head (hex_of (codes "10")) ≡ Ok 16 }
    ensures no_word { in_form which.Head (hex_of (codes "x")) ≡ Err which.Head }
    ensures value { some_in_form which.Swap (hex_of (codes "10")) ≡ Ok (Some 16) }
    ensures no_value { some_in_form which.Swap (hex_of (codes "x")) ≡ Err which.Swap }
    ensures absent { option_in_form which.At hex_of None ≡ Ok None }
    ensures present { option_in_form which.At hex_of (Some (codes "10")) ≡ Ok (Some 16) }
    ensures refusal { option_in_form which.At hex_of (Some (codes "x")) ≡ Err which.At }
{}

/// An address is any hexadecimal number, and where it is none, its own option or word is named.
pub fn words_of_addresses()
    ensures at { address_of which.At (Some (codes "1F00")) ≡ Ok (Some 0x1f00) }
    ensures at_refusal { address_of which.At (Some (codes "")) ≡ Err which.At }
    ensures entry { address_of which.Entry (Some (codes "ffffffffffffffff"))
        ≡ Ok (Some 0xffff_ffff_ffff_ffff) }
    ensures entry_refusal { address_of which.Entry (Some (codes "10000000000000000"))
        ≡ Err which.Entry }
    ensures absent { address_of which.Entry None ≡ Ok None }
    ensures head { head_of (codes "20002") ≡ Ok 0x20002 }
    ensures head_refusal { head_of (codes "0x20002") ≡ Err which.Head }
{}

/// `--below` is the first page past the limit, and none where no page lies past it.
pub fn words_of_limits()
    ensures absent { below_of None ≡ Ok None }
    ensures zero { below_of (Some (codes "0")) ≡ Ok (Some 0) }
    ensures below_4_gib { below_of (Some (codes "100000000")) ≡ Ok (Some 0x10_0000) }
    ensures last { below_of (Some (codes "3ffffffff000")) ≡ Ok (Some 0x3_ffff_ffff) }
    ensures all { below_of (Some (codes "400000000000")) ≡ Ok None }
    ensures past_all { below_of (Some (codes "400000001000")) ≡ Err which.Below }
    ensures inside { below_of (Some (codes "100001")) ≡ Err which.Below }
    ensures steps { limit_of (codes "100000000") ≡ Ok 100000000 }
    ensures steps_refusal { limit_of (codes "100000001") ≡ Err which.Limit }
{}

/// `--swap` is the address of a page.
pub fn words_of_swap_pages()
    ensures absent { swap_of None ≡ Ok None }
    ensures page { swap_of (Some (codes "12000")) ≡ Ok (Some 0x12000) }
    ensures inside { swap_of (Some (codes "12008")) ≡ Err which.Swap }
    ensures past_all { swap_of (Some (codes "400000000000")) ≡ Err which.Swap }
{}

/// The type, `--kept`, `--at`, `--entry` and `--below`, each in its place.
pub fn numbers_of_a_plan()
    ensures all { with_numbers
        (plan_numbers_of (Some (codes "raw")) (Some (codes "2")) (Some (codes "2000"))
        (Some (codes "2004")) (Some (codes "100000")))
        (boot_with inputs (codes "o"))
        ≡ Ok (record {
          inputs = inputs;
          out = codes "o";
          kept = Some Twice;
          image = image.Raw 0x2000 0x2004;
        }) }
    ensures below { with_numbers
        (plan_numbers_of (Some (codes "raw")) (Some (codes "2")) (Some (codes "2000"))
        (Some (codes "2004")) (Some (codes "100000"))) (λ n. Ok n.below) ≡ Ok (Some 0x100) }
    ensures none { with_numbers (plan_numbers_of None None None None None)
        (boot_with inputs (codes "o"))
        ≡ Ok (record { inputs = inputs; out = codes "o"; kept = None; image = image.Auto }) }
    ensures no_limit { with_numbers (plan_numbers_of None None None None None) (λ n. Ok n.below)
        ≡ Ok None }
{}

/// Of five that have not their form the first is named, and each in turn where those before it have theirs.
pub fn first_fault_of_a_plan()
    ensures kind { plan_numbers_of (Some (codes "x")) (Some (codes "3")) (Some (codes "g"))
        (Some (codes "g")) (Some (codes "1")) ≡ Err which.Type }
    ensures kept { plan_numbers_of (Some (codes "elf")) (Some (codes "3")) (Some (codes "g"))
        (Some (codes "g")) (Some (codes "1")) ≡ Err which.Kept }
    ensures at { plan_numbers_of (Some (codes "elf")) (Some (codes "1")) (Some (codes "g"))
        (Some (codes "g")) (Some (codes "1")) ≡ Err which.At }
    ensures entry { plan_numbers_of (Some (codes "elf")) (Some (codes "1")) (Some (codes "1"))
        (Some (codes "g")) (Some (codes "1")) ≡ Err which.Entry }
    ensures below { plan_numbers_of (Some (codes "elf")) (Some (codes "1")) (Some (codes "1"))
        (Some (codes "1")) (Some (codes "1")) ≡ Err which.Below }
{}

/// The swap page, the head and the limit, each in its place, and which of them is named first.
pub fn numbers_of_a_trace()
    ensures all { with_numbers
        (trace_numbers_of (Some (codes "12000")) (codes "20002") (codes "7"))
        (trace_with (codes "m") (codes "o"))
        ≡ Ok (record {
          memory = codes "m";
          out = codes "o";
          head = 0x20002;
          limit = 7;
          swap = Some 0x12000;
        }) }
    ensures no_swap { with_numbers (trace_numbers_of None (codes "4") (codes "10"))
        (trace_with (codes "m") (codes "o"))
        ≡ Ok (record { memory = codes "m"; out = codes "o"; head = 4; limit = 10; swap = None }) }
    ensures swap { trace_numbers_of (Some (codes "12001")) (codes "x") (codes "x")
        ≡ Err which.Swap }
    ensures head { trace_numbers_of (Some (codes "12000")) (codes "x") (codes "x")
        ≡ Err which.Head }
    ensures limit { trace_numbers_of (Some (codes "12000")) (codes "20002") (codes "x")
        ≡ Err which.Limit }
{}
