//! The table: the options of the commands.

use crate::roles::Role;
use crate::table::{Argument, Form, Kind};

/// The words that `--type` takes, as a sentence lists them.
pub(crate) const TYPE_WORDS: &str = "raw, elf, bzimage or multiboot";

/// The words that `--kept` of `boot` takes.
pub(crate) const RUNS_WORDS: &str = "1 or 2";

// An option of one value: an address, where its row says nothing else.
const OPTION: Argument = Argument {
    id: "",
    name: "",
    value: "ADDRESS",
    form: Form::Value,
    kind: Kind::Address,
    role: None,
    choices: "",
    text: "",
};

// An option of one value, the name of a file that is read.
const FILE: Argument = Argument {
    value: "FILE",
    kind: Kind::Input,
    ..OPTION
};

// An option without a value.
const FLAG: Argument = Argument {
    value: "",
    form: Form::Flag,
    kind: Kind::Presence,
    ..OPTION
};

pub(crate) const RUNS: Argument = Argument {
    id: "kept",
    name: "--kept",
    value: "RUNS",
    kind: Kind::Choice,
    choices: RUNS_WORDS,
    text: "preserve context and run the list this many times: into the new kernel, and with 2 back again; default: one run in plain mode",
    ..OPTION
};

pub(crate) const KEPT: Argument = Argument {
    id: "kept",
    name: "--kept",
    text: "preserve context, so that the list can be run a second time, back into the old kernel; default: plain mode",
    ..FLAG
};

pub(crate) const BELOW: Argument = Argument {
    id: "below",
    name: "--below",
    text: "use only pages of the pool below this address, a multiple of 0x1000 up to 0x400000000000; default: all pages of the pool",
    ..OPTION
};

pub(crate) const MAP: Argument = Argument {
    id: "map",
    name: "--map",
    role: Some(Role::Map),
    text: "the memory map, as /proc/iomem prints it; required for every type but raw, and with --purgatory",
    ..FILE
};

pub(crate) const NEEDED_MAP: Argument = Argument {
    form: Form::Needed,
    text: "the memory map, as /proc/iomem prints it; required",
    ..MAP
};

pub(crate) const TYPE: Argument = Argument {
    id: "type",
    name: "--type",
    value: "TYPE",
    kind: Kind::Choice,
    choices: TYPE_WORDS,
    text: "the type of the kernel; default: the type that the file's header shows",
    ..OPTION
};

pub(crate) const AT: Argument = Argument {
    id: "at",
    name: "--at",
    text: "the address of a raw kernel; required for it, and without effect for the other types",
    ..OPTION
};

pub(crate) const NEEDED_AT: Argument = Argument {
    form: Form::Needed,
    text: "the address of the kernel, where it is entered: a hexadecimal number of 1 to 16 digits, without 0x; required",
    ..AT
};

pub(crate) const ENTRY: Argument = Argument {
    id: "entry",
    name: "--entry",
    text: "the address where a raw kernel is entered; default: the address of --at; without effect for the other types",
    ..OPTION
};

pub(crate) const COMMAND: Argument = Argument {
    id: "command",
    name: "--command",
    value: "TEXT",
    kind: Kind::Text,
    text: "the kernel's command line; default: none",
    ..OPTION
};

pub(crate) const INITRD: Argument = Argument {
    id: "initrd",
    name: "--initrd",
    role: Some(Role::Initrd),
    text: "the initial RAM disk; default: none",
    ..FILE
};

pub(crate) const PURGATORY: Argument = Argument {
    id: "purgatory",
    name: "--purgatory",
    role: Some(Role::Purgatory),
    text: "the purgatory, an ELF64 object for x86-64 that runs before the kernel; default: none",
    ..FILE
};

pub(crate) const NOTES: Argument = Argument {
    id: "notes",
    name: "--notes",
    role: Some(Role::Notes),
    text: "the places of the ELF notes for the crash headers; on each line an address and a size in bytes, both hexadecimal; default: none",
    ..FILE
};

pub(crate) const TWICE: Argument = Argument {
    id: "twice",
    name: "--twice",
    text: "run the list a second time, back into the old kernel, which the load must have preserved; default: one run",
    ..FLAG
};

pub(crate) const SWAP: Argument = Argument {
    id: "swap",
    name: "--swap",
    text: "the address of the swap page, for moves with context preserved: a hexadecimal number of 1 to 16 digits, without 0x, that is a multiple of 0x1000 below 0x400000000000; default: plain mode",
    ..OPTION
};
