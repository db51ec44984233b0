//! Which addresses the parts of a kernel take.

ghost use Rattle.plan_laws.specs.Extremes.{LinuxLiesAtTheEnds, MultibootLiesAtTheEnds};

/// A planned Linux kernel lies at the least address at which it fits; its initrd, its crash headers, its boot parameters and
/// its purgatory, one after the other, each lie at the greatest, beside those before it.
pub fn linux_lies_at_the_ends()
    ensures { LinuxLiesAtTheEnds }
{}

/// The modules of a planned Multiboot kernel, its information and its purgatory, one after the other, each lie at the
/// greatest address at which they fit, beside the kernel and those before.
pub fn multiboot_lies_at_the_ends()
    ensures { MultibootLiesAtTheEnds }
{}
