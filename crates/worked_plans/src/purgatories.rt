//! The purgatory of a plan: its symbols, and what it is to find.

ghost use Rattle.std.specs.Prelude.{◌≡◌, ◌++◌, ◌==◌, ◌∷◌, [], Some, None, Ok, Err, codes, length, replicate, if◌then◌else◌};
ghost use Rattle.byteorder.specs.Endian.{little_bytes};
ghost use Rattle.elf_image.specs.declared.fault.ElfFault.TheVariants as elf;
ghost use Rattle.purgatory_link.specs.declared.fault.LinkFault.TheVariants as link;
ghost use Rattle.purgatory_link.specs.declared.purgatory_symbol.PurgatorySymbol.TheVariants as symbols;
ghost use Rattle.purgatory_link.specs.Regions.{digest, others, wanted_bytes};
ghost use Rattle.kexec_plan.specs.Purgatory.{read_purgatory, some_purgatory, purgatory_rule, place_by, symbol_place, address_by, symbol_address, symbols_of, linked_at, registers_text, arm};
ghost use Rattle.kexec_plan.specs.Table.{highest};
ghost use Rattle.plan_faults.specs.declared.fault.Part.TheVariants as parts;
ghost use Rattle.plan_faults.specs.declared.fault.PlanFault.TheVariants as faults;
ghost use Rattle.worked_plans.specs.Machines.{pages_at};
ghost use Rattle.worked_plans.specs.Plans.{unarmed};
ghost use Rattle.worked_plans.specs.Samples.{digest_of_nothing};
ghost use Rattle.worked_plans.specs.Purgatories.{purgatory_file, purgatory_of, object_header, linked_image, small_linkage, overlapping_linkage, linkage, some_start};

/// A purgatory is an object, which is linked to whole pages.
pub fn purgatory_that_is_read()
    ensures read { read_purgatory (purgatory_file 136) ≡ Ok (purgatory_of 136) }
    ensures some { some_purgatory (Some (purgatory_file 136)) ≡ Ok (Some (purgatory_of 136)) }
    ensures none { some_purgatory None ≡ Ok None }
    ensures no_object { some_purgatory (Some (codes "ELF")) ≡ Err (faults.Object elf.NotElf) }
    ensures executable { read_purgatory (object_header 2 62) ≡ Err (faults.Object elf.Kind) }
    ensures rule { purgatory_rule 0x7fff_ffff (purgatory_of 136)
        ≡ highest parts.Purgatory 4096 0x7fff_ffff }
{}

/// The address of a symbol, which has its size and lies in the linked bytes: 24 from 0x7000 on.
pub fn places_of_symbols()
    ensures none { place_by linked_image (codes "entry64_regs") 8 None
        ≡ Err (link.NoSymbol symbols.Registers) }
    ensures here { place_by linked_image (codes "second") 8 (Some (0x7010, 8)) ≡ Ok 0x7010 }
    ensures other_size { place_by linked_image (codes "second") 8 (Some (0x7010, 7))
        ≡ Err (link.WrongSize 7) }
    ensures past_the_end { place_by linked_image (codes "second") 8 (Some (0x7011, 8))
        ≡ Err (link.WrongSize 8) }
    ensures before_the_start { place_by linked_image (codes "second") 8 (Some (0x6fff, 8))
        ≡ Err (link.WrongSize 8) }
    ensures named { symbol_place linked_image (codes "second") 16 ≡ Ok 0x7008 }
    ensures named_twice { symbol_place linked_image (codes "first") 8 ≡ Ok 0x7000 }
    ensures not_named { symbol_place linked_image (codes "third") 8
        ≡ Err (link.NoSymbol symbols.Other) }
    ensures address { address_by (codes "third") (Some (0x9000, 0)) ≡ Ok 0x9000 }
    ensures no_address { address_by (codes "purgatory_start") None
        ≡ Err (link.NoSymbol symbols.Start) }
    ensures address_of_a_name { symbol_address linked_image (codes "second") ≡ Ok 0x7008 }
    ensures address_of_no_name { symbol_address linked_image (codes "thir")
        ≡ Err (link.NoSymbol symbols.Other) }
{}

/// The symbols of a purgatory at 0x7ff000, and the first that is refused.
pub fn symbols_of_a_purgatory()
    ensures linked { linked_at (purgatory_of 136) (record { at = 0x7f_f000; size = 4096 })
        ≡ Ok (linkage 0x7f_f000) }
    ensures no_symbol { symbols_of linked_image ≡ Err (link.NoSymbol symbols.Registers) }
    ensures registers_first { linked_at (purgatory_of 128) (record { at = 0x7f_f000; size = 4096 })
        ≡ Err (faults.Link (link.WrongSize 128)) }
{}

/// What stands in place of the symbols: rax, rbx, rsi and rip of the kernel's start in the registers, then the table of
/// regions and the digest, in this order. A digest that overlaps the table is written over it.
pub fn what_a_purgatory_finds()
    ensures registers { registers_text some_start
        ≡ little_bytes 8 0x33
        ++ (replicate 16 0 ++ (little_bytes 8 0x44
        ++ (replicate 16 0 ++ (little_bytes 8 0x55
        ++ (replicate 72 0 ++ little_bytes 8 0x1122))))) }
    ensures registers_length { length (registers_text some_start) ≡ 136 }
    ensures armed { arm small_linkage some_start (replicate 256 0xaa) (replicate 32 0xdd)
        ≡ replicate 4 0x90
        ++ (registers_text some_start
        ++ (replicate 6 0x90 ++ (replicate 256 0xaa
        ++ (replicate 7 0x90 ++ (replicate 32 0xdd ++ replicate 8 0x90))))) }
    ensures overlapping { arm overlapping_linkage some_start (replicate 256 0xaa)
        (replicate 32 0xdd)
        ≡ replicate 4 0xaa ++ (replicate 32 0xdd ++ replicate 220 0xaa) }
{}

/// What a purgatory tests: every segment but its own. Of a kernel without pages the digest is that of nothing.
pub fn regions_of_a_plan()
    ensures others { others (pages_at 1 1 ∷ pages_at 2 1 ∷ pages_at 3 1 ∷ []) 1
        ≡ pages_at 1 1 ∷ pages_at 3 1 ∷ [] }
    ensures bytes { wanted_bytes (λ p. if p == 3 then None else Some (p ∷ [])) (5 ∷ 3 ∷ 4 ∷ [])
        ≡ 5 ∷ 4 ∷ [] }
    ensures digest { digest (pages_at 0x100 0 ∷ unarmed 0x7f_d000 ∷ []) 1 ≡ digest_of_nothing }
{}
