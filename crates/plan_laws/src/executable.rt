//! What an executable and a raw kernel are loaded as.

ghost use Rattle.plan_laws.specs.Executable.{ElfIsLoaded, RawIsLoaded};

/// An ELF executable that is planned without a purgatory is entered at its entry, and each byte that a program header loads
/// is the file's, or zero behind the file's part.
pub fn elf_is_loaded()
    ensures { ElfIsLoaded }
{}

/// A raw kernel that is planned without a purgatory lies where it was asked for.
pub fn raw_is_loaded()
    ensures { RawIsLoaded }
{}
