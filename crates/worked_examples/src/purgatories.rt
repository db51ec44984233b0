//! Linking a purgatory, and testing the regions that it tells of.

ghost use Rattle.std.specs.Prelude.{◌≡◌, ◌++◌, ◌^◌, ◌∷◌, [], true, false, is_some, option_map, Some, None, Ok, Err, codes, map, pos, negsuc, replicate};
ghost use Rattle.byteorder.specs.Endian.{little_bytes};
ghost use Rattle.purgatory_link.specs.Formulas.{fits, form_of, formula, modulo};
ghost use Rattle.purgatory_link.specs.Layout.{linked_size, starts};
ghost use Rattle.purgatory_link.specs.Link.{linking};
ghost use Rattle.purgatory_link.specs.declared.fault.LinkFault.TheVariants as faults;
ghost use Rattle.worked_examples.specs.Objects.{file_with, object_with};

/// What relocations compute (x86-64 psABI, "Relocation Types"): R_X86_64_64 (1), R_X86_64_PC32 (2), R_X86_64_PLT32 (4),
/// R_X86_64_32 (10) and R_X86_64_32S (11). R_X86_64_NONE (0) is known too, and R_X86_64_GOT32 (3) is not.
pub fn formulas_of_relocations()
    ensures types { map (λ type. is_some (form_of type)) (0 ∷ 1 ∷ 2 ∷ 4 ∷ 10 ∷ 11 ∷ 3 ∷ [])
        ≡ true ∷ true ∷ true ∷ true ∷ true ∷ true ∷ false ∷ [] }
    ensures whole { option_map (λ form. formula form 0x1000 (negsuc 3) 0x2000) (form_of 1)
        ≡ Some (pos 0xffc) }
    ensures relative { map
        (λ type. option_map (λ form. formula form 0x1000 (negsuc 3) 0x1010) (form_of type))
        (2 ∷ 4 ∷ []) ≡ Some (negsuc 19) ∷ Some (negsuc 19) ∷ [] }
    ensures relative_bytes { modulo (2 ^ 32) (negsuc 19) ≡ 0xffff_ffec }
    ensures unsigned { map (λ value. option_map (λ form. fits form value) (form_of 10))
        (pos 0xffff_ffff ∷ pos 0x1_0000_0000 ∷ negsuc 0 ∷ [])
        ≡ Some true ∷ Some false ∷ Some false ∷ [] }
    ensures signed { map (λ value. option_map (λ form. fits form value) (form_of 11))
        (pos 0x7fff_ffff ∷ pos 0x8000_0000 ∷ negsuc 0x7fff_ffff ∷ negsuc 0x8000_0000 ∷ [])
        ≡ Some true ∷ Some false ∷ Some true ∷ Some false ∷ [] }
{}

/// An object is laid section by section, each at a multiple of its alignment, and filled with zeros up to a page.
pub fn linked_object()
    ensures places { starts 0 (object_with 0).sections ≡ None ∷ Some 0 ∷ Some 16 ∷ None ∷ [] }
    ensures size { linked_size (object_with 0).sections ≡ Ok 4096 }
    ensures absolute { linking 0x7f_f000 (object_with 0xffff_ffff) (file_with 10 1)
        ≡ Ok (record {
          base = 0x7f_f000;
          bytes = replicate 8 0x90 ++ (replicate 4 0xff ++ (replicate 4 0x90 ++ replicate 4080 0));
          names = record { name = codes "start"; address = 0x7f_f004; size = 12 } ∷ [];
        }) }
    ensures relative { linking 0x7f_f000 (object_with 0) (file_with 2 2)
        ≡ Ok (record {
          base = 0x7f_f000;
          bytes = replicate 8 0x90
              ++ (little_bytes 4 0xffff_fffc ++ (replicate 4 0x90 ++ replicate 4080 0));
          names = record { name = codes "start"; address = 0x7f_f004; size = 12 } ∷ [];
        }) }
{}

/// The first refusals of linking: a value that does not fit its field, an unknown type, and a symbol that is not there.
pub fn refused_links()
    ensures too_large { linking 0x7f_f000 (object_with 0x1_0000_0000) (file_with 10 1)
        ≡ Err (faults.DoesNotFit 0x7f_f008) }
    ensures unknown { linking 0x7f_f000 (object_with 0) (file_with 3 1)
        ≡ Err (faults.UnknownReloc 3) }
    ensures undefined { linking 0x7f_f000 (object_with 0) (file_with 10 7)
        ≡ Err (faults.Undefined 7) }
{}
