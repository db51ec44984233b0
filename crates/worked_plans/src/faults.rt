//! What the faults of lower calls are in a plan.

ghost use Rattle.std.specs.Prelude.{◌≡◌, ℕ, Ok, Err};
ghost use Rattle.boot_params.specs.declared.fault.ParamsFault.TheVariants as params;
ghost use Rattle.bzimage.specs.declared.fault.BzFault.TheVariants as bz;
ghost use Rattle.crash_headers.specs.declared.fault.CrashFault.TheVariants as crash;
ghost use Rattle.elf_image.specs.declared.fault.ElfFault.TheVariants as elf;
ghost use Rattle.multiboot_image.specs.declared.fault.MbFault.TheVariants as multiboot;
ghost use Rattle.purgatory_link.specs.declared.fault.LinkFault.TheVariants as link;
ghost use Rattle.plan_faults.specs.Faults.{told_by, of_elf, of_object, of_bzimage, of_params, of_link, of_multiboot, of_crash};
ghost use Rattle.plan_faults.specs.declared.fault.PlanFault.TheVariants as faults;

/// A fault is told as that of its part: an ELF file is the kernel or the purgatory.
pub fn faults_of_parts()
    ensures kept { told_by {A = ℕ} of_elf (Ok 7) ≡ Ok 7 }
    ensures told { told_by {A = ℕ} of_elf (Err elf.Machine) ≡ Err (faults.Elf elf.Machine) }
    ensures elf { of_elf (elf.LoadsOverlap 2 1) ≡ faults.Elf (elf.LoadsOverlap 2 1) }
    ensures object { of_object elf.NotElf ≡ faults.Object elf.NotElf }
    ensures bzimage { of_bzimage (bz.OldVersion 523) ≡ faults.Bzimage (bz.OldVersion 523) }
    ensures params { of_params (params.CommandTooLong 5 4)
        ≡ faults.Params (params.CommandTooLong 5 4) }
    ensures link { of_link (link.BadAlign 3) ≡ faults.Link (link.BadAlign 3) }
    ensures multiboot { of_multiboot (multiboot.UnknownFlag 2)
        ≡ faults.Multiboot (multiboot.UnknownFlag 2) }
    ensures crash { of_crash (crash.NotesOutside 3) ≡ faults.Crash (crash.NotesOutside 3) }
{}

/// Want of memory stays want of memory, whatever wanted it.
pub fn want_of_memory()
    ensures told { told_by {A = ℕ} of_elf (Err elf.Memory) ≡ Err faults.Memory }
    ensures elf { of_elf elf.Memory ≡ faults.Memory }
    ensures object { of_object elf.Memory ≡ faults.Memory }
    ensures bzimage { of_bzimage bz.Memory ≡ faults.Memory }
    ensures params { of_params params.Memory ≡ faults.Memory }
    ensures link { of_link link.Memory ≡ faults.Memory }
    ensures multiboot { of_multiboot multiboot.Memory ≡ faults.Memory }
    ensures crash { of_crash crash.Memory ≡ faults.Memory }
{}
