//! The words of kexec(8), which is another program, and what stands here in their place.

ghost use Rattle.std.specs.Prelude.{◌≡◌, option_map};
ghost use Rattle.kexec_usage.specs.inner.OldWords.{command_for, option_for, type_for};

// Options of kexec(8) that act on the running machine, or on how the program does so.
const WITHOUT_COUNTERPART: &str = "\
    -u --unload -S --status -f --force -x --no-ifdown -y --no-sync -s --kexec-file-syscall \
    -c --kexec-syscall -a --kexec-syscall-auto -d --debug --reuse-cmdline --mem-min --mem-max";

/// The command that does what an option of kexec(8) does.
pub(crate) fn command_for(option: &str) -> Option<&'static str>
    ensures { option_map (λ s. s.now) result ≡ command_for option.now }
{
    match option {
        "-l" | "--load" => Some("load"),
        "-e" | "--exec" => Some("exec"),
        "-p" | "--load-panic" => Some("load-panic"),
        _ => None,
    }
}

/// The option that does what an option of kexec(8) does.
pub(crate) fn option_for(option: &str) -> Option<&'static str>
    ensures { option_map (λ s. s.now) result ≡ option_for option.now }
{
    match option {
        "-t" => Some("--type"),
        "--append" | "--command-line" => Some("--command"),
        "--ramdisk" => Some("--initrd"),
        "--load-preserve-context" => Some("--kept"),
        _ => None,
    }
}

/// The type of kernels that a type of kexec(8) is here.
pub(crate) fn type_for(kind: &str) -> Option<&'static str>
    ensures { option_map (λ s. s.now) result ≡ type_for kind.now }
{
    match kind {
        "bzImage" | "bzImage64" => Some("bzimage"),
        "elf-x86_64" => Some("elf"),
        "multiboot-x86" => Some("multiboot"),
        _ => None,
    }
}

/// Whether an option of kexec(8) has no counterpart here.
pub(crate) fn has_no_counterpart(option: &str) -> bool {
    WITHOUT_COUNTERPART.split(' ').any(|one| one == option)
}
