//! Relocatable objects: their sections, symbols and relocations, and the first refusals.

ghost use Rattle.std.specs.Prelude.{◌≡◌, ◌∷◌, [], Ok, Err, negsuc, take};
ghost use Rattle.elf_image.specs.Object.{object_reading, relocs_of};
ghost use Rattle.elf_image.specs.declared.fault.ElfFault.TheVariants as faults;
ghost use Rattle.elf_image.specs.declared.fault.ElfPart.TheVariants as parts;
ghost use Rattle.worked_examples.specs.Objects.{object_file, object_header_of, object_read};

/// An object with code, a symbol in it, and a relocation against that symbol with the addend -1.
pub fn object_with_a_relocation()
    ensures read { object_reading (object_file 1 1 1) ≡ Ok object_read }
    ensures relocation { relocs_of (object_file 1 1 1) object_read
        ≡ record {
          target = 1;
          offset = 2;
          kind = 2;
          symbol = 1;
          addend = negsuc 0;
          section = 4;
          entry = 0;
        } ∷ [] }
{}

/// The first refusals of an object: an executable, another machine, a cut table, a symbol of a section that is not there,
/// and a relocation against a symbol that is not there.
pub fn spoiled_objects()
    ensures executable { object_reading (object_file 2 1 1) ≡ Err faults.Kind }
    ensures machine { object_reading (object_header_of 1 3) ≡ Err faults.Machine }
    ensures short_table { object_reading (take 471 (object_file 1 1 1))
        ≡ Err (faults.Truncated parts.SectionTable) }
    ensures section { object_reading (object_file 1 5 1) ≡ Err (faults.BadIndex 102) }
    ensures symbol { object_reading (object_file 1 1 2) ≡ Err (faults.BadIndex 136) }
{}
