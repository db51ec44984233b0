//! Ranges of bytes, and what a name says of one.

ghost use Rattle.std.specs.Prelude.{◌≡◌, ◌<◌, ◌≤◌};
ghost use Rattle.memory_map.specs.Text.{class_of, below_limit};

use kx_pages::ADDRESS_LIMIT;

/// A range of `size` bytes from address `start` on, and its kind: a row of the firmware's memory map (E820) as the
/// Linux/x86 boot protocol has it. Kind 1 is RAM, 2 reserved, 3 ACPI tables, 4 ACPI storage that lasts.
#[derive(Clone, Copy)]
pub struct Row {
    pub start: u64,
    pub size: u64,
    pub kind: u32,
}

/// What a name says of its range: a row of this kind, a crash kernel's area, or nothing.
#[derive(Clone, Copy)]
pub(crate) enum Class {
    Listed { kind: u32 },
    CrashArea,
    Other,
}

/// What a name says, with the names that Linux writes into `/proc/iomem`.
#[tactic(auto, unfolding(crate::specs::Text::class_of))]
pub(crate) fn class_of(name: &[u8]) -> Class
    ensures { result ≡ class_of name.now }
{
    if name == b"System RAM".as_slice() {
        Class::Listed { kind: 1 }
    } else if name == b"Reserved".as_slice() {
        Class::Listed { kind: 2 }
    } else if name == b"reserved".as_slice() {
        Class::Listed { kind: 2 }
    } else if name == b"ACPI Tables".as_slice() {
        Class::Listed { kind: 3 }
    } else if name == b"ACPI Non-volatile Storage".as_slice() {
        Class::Listed { kind: 4 }
    } else if name == b"Crash kernel".as_slice() {
        Class::CrashArea
    } else {
        Class::Other
    }
}

/// The bytes from `first` to `last` that lie below the limit of addresses.
pub(crate) fn below_limit(first: u64, last: u64, kind: u32) -> Row
    requires { first ≤ last }
    ensures { result ≡ below_limit first last kind }
{
    let start = first.min(ADDRESS_LIMIT);
    let end = if last < ADDRESS_LIMIT {
        last + 1
    } else {
        ADDRESS_LIMIT
    };
    Row {
        start,
        size: end - start,
        kind,
    }
}
