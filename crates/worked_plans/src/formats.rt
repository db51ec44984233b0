//! The form of a kernel's file, and the parts that a kernel of this form takes.

ghost use Rattle.std.specs.Prelude.{◌≡◌, ◌++◌, ◌∷◌, [], true, false, Some, None, Ok, Err, codes, map, replicate};
ghost use Rattle.kx_fields.specs.Fields.{with_bytes};
ghost use Rattle.kx_pages.specs.declared.image.ImageType.TheVariants as types;
ghost use Rattle.multiboot_image.specs.declared.fault.MbFault.TheVariants as multiboot;
ghost use Rattle.kexec_plan.specs.Formats.{has_header, shown_format, given_format, format_of, has_some};
ghost use Rattle.plan_faults.specs.declared.fault.Part.TheVariants as parts;
ghost use Rattle.plan_faults.specs.declared.fault.PlanFault.TheVariants as faults;
ghost use Rattle.worked_plans.specs.Executables.{executable};
ghost use Rattle.worked_plans.specs.Forms.{all_types, bzimage_in, multiboot_in, unused_in};
ghost use Rattle.worked_plans.specs.LinuxKernels.{linux_file};
ghost use Rattle.worked_plans.specs.Multiboots.{head, multiboot_file, a_module};
ghost use Rattle.worked_plans.specs.Requests.{asked, asked_with_parts};

/// A file shows a bzImage before a Multiboot kernel, and this before an ELF file. A header that asks for what is not
/// served is one, too.
pub fn forms_of_files()
    ensures headers { map has_header
        (Err multiboot.NoHeader ∷ Err (multiboot.UnknownFlag 2) ∷ Err multiboot.BadKludge
        ∷ Ok (record { at = 0; flags = 0; kludge = None }) ∷ [])
        ≡ false ∷ true ∷ true ∷ true ∷ [] }
    ensures bzimage { shown_format (linux_file 3) ≡ given_format [] types.Bzimage }
    ensures bzimage_first { shown_format (with_bytes 0 (head 0 0xe452_4ffe) (linux_file 3))
        ≡ given_format [] types.Bzimage }
    ensures multiboot { shown_format multiboot_file ≡ given_format [] types.Multiboot }
    ensures unknown_flag { shown_format (head 0x1_0004 0xe451_4ffa)
        ≡ given_format [] types.Multiboot }
    ensures multiboot_before_elf { shown_format (0x7f ∷ codes "ELF" ++ head 0 0xe452_4ffe)
        ≡ given_format [] types.Multiboot }
    ensures elf { shown_format executable ≡ given_format [] types.Elf }
    ensures magic_alone { shown_format (0x7f ∷ codes "ELF") ≡ given_format [] types.Elf }
    ensures cut_magic { shown_format (0x7f ∷ codes "EL") ≡ Err faults.UnknownImage }
    ensures zeros { shown_format (replicate 64 0) ≡ Err faults.UnknownImage }
{}

/// A type that is given stands against what the file shows. Only a bzImage takes an initrd, and only a Multiboot kernel
/// modules.
pub fn forms_that_are_given()
    ensures raw { given_format (linux_file 3) (types.Raw 0x1000 0x1004)
        ≡ given_format [] (types.Raw 0x1000 0x1004) }
    ensures elf { given_format (linux_file 3) types.Elf ≡ given_format executable types.Auto }
    ensures bzimage { given_format executable types.Bzimage
        ≡ given_format (linux_file 3) types.Auto }
    ensures multiboot { given_format executable types.Multiboot
        ≡ given_format multiboot_file types.Auto }
    ensures auto { given_format [] types.Auto ≡ Err faults.UnknownImage }
    ensures of_a_request { format_of (asked types.Auto multiboot_file)
        ≡ given_format [] types.Multiboot }
    ensures bzimages { map bzimage_in all_types ≡ Ok false ∷ Ok false ∷ Ok true ∷ Ok false ∷ [] }
    ensures multiboots { map multiboot_in all_types
        ≡ Ok false ∷ Ok false ∷ Ok false ∷ Ok true ∷ [] }
{}

/// The first part that a kernel has no use for: an initrd, a module, a command. Here all three are given, then all but the
/// initrd, and then the command alone.
pub fn parts_without_use()
    ensures some_modules { map has_some ([] ∷ (a_module ∷ []) ∷ []) ≡ false ∷ true ∷ [] }
    ensures all { map (unused_in asked_with_parts) all_types
        ≡ Ok (Some parts.Initrd) ∷ Ok (Some parts.Initrd) ∷ Ok (Some parts.Module)
        ∷ Ok (Some parts.Initrd) ∷ [] }
    ensures no_initrd { map (unused_in (record asked_with_parts { initrd = None })) all_types
        ≡ Ok (Some parts.Module) ∷ Ok (Some parts.Module) ∷ Ok (Some parts.Module) ∷ Ok None ∷ [] }
    ensures command { map (unused_in (record asked_with_parts { initrd = None; modules = [] }))
        all_types
        ≡ Ok (Some parts.Command) ∷ Ok (Some parts.Command) ∷ Ok None ∷ Ok None ∷ [] }
    ensures initrd { unused_in (record asked_with_parts { modules = [] }) types.Bzimage ≡ Ok None }
    ensures nothing { map (unused_in (asked types.Auto [])) all_types
        ≡ Ok None ∷ Ok None ∷ Ok None ∷ Ok None ∷ [] }
{}
