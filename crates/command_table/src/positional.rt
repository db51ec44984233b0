//! The table: the positional words of the commands.

use crate::roles::Role;
use crate::table::{Argument, Form, Kind};

// A positional word that must be there: the name of a file that is read, where its row says nothing else.
const WORD: Argument = Argument {
    id: "",
    name: "",
    value: "",
    form: Form::Word,
    kind: Kind::Input,
    role: None,
    choices: "",
    text: "",
};

pub(crate) const MEMORY: Argument = Argument {
    id: "MEMORY",
    name: "MEMORY",
    role: Some(Role::Memory),
    text: "the memory before the load",
    ..WORD
};

pub(crate) const LOADED_MEMORY: Argument = Argument {
    text: "the memory after the load",
    ..MEMORY
};

pub(crate) const TRACED_MEMORY: Argument = Argument {
    text: "the memory before the first step",
    ..MEMORY
};

pub(crate) const DRILLED_MEMORY: Argument = Argument {
    text: "the memory before the first event",
    ..MEMORY
};

pub(crate) const STOPPED_MEMORY: Argument = Argument {
    text: "the memory of the stopped machine",
    ..MEMORY
};

pub(crate) const POOL: Argument = Argument {
    id: "POOL",
    name: "POOL",
    role: Some(Role::Pool),
    text: "the free pages in the order of their use; on each line a hexadecimal page number or a range first-last",
    ..WORD
};

pub(crate) const RUN_OUT: Argument = Argument {
    id: "OUT",
    name: "OUT",
    kind: Kind::Output,
    role: Some(Role::MemoryOut),
    text: "the memory after the last run; not a file that is read",
    ..WORD
};

pub(crate) const LOADED_OUT: Argument = Argument {
    text: "the memory after the load; not a file that is read",
    ..RUN_OUT
};

pub(crate) const TRACED_OUT: Argument = Argument {
    text: "the memory after the last step; not MEMORY",
    ..RUN_OUT
};

pub(crate) const DRILLED_OUT: Argument = Argument {
    text: "the memory after the last event; not a file that is read",
    ..RUN_OUT
};

pub(crate) const MIGRATED_OUT: Argument = Argument {
    role: Some(Role::RecordOut),
    text: "the load in version 2; not RECORD",
    ..RUN_OUT
};

pub(crate) const CORE_OUT: Argument = Argument {
    role: Some(Role::CoreOut),
    text: "the memory as one ELF core file; not MEMORY",
    ..RUN_OUT
};

pub(crate) const RECORD: Argument = Argument {
    id: "RECORD",
    name: "RECORD",
    role: Some(Role::Record),
    text: "the load, as load or load-panic wrote it",
    ..WORD
};

pub(crate) const RECORD_OUT: Argument = Argument {
    kind: Kind::Output,
    role: Some(Role::RecordOut),
    text: "the load, as check, dump and exec read it; neither OUT nor a file that is read",
    ..RECORD
};

pub(crate) const KERNEL: Argument = Argument {
    id: "KERNEL",
    name: "KERNEL",
    role: Some(Role::Kernel),
    text: "the kernel",
    ..WORD
};

pub(crate) const CRASH_KERNEL: Argument = Argument {
    text: "the crash kernel, a bzImage",
    ..KERNEL
};

pub(crate) const MODULES: Argument = Argument {
    id: "MODULES",
    name: "MODULES",
    form: Form::Words,
    role: Some(Role::Module),
    text: "Multiboot modules, at most 12",
    ..WORD
};

pub(crate) const PAIRS: Argument = Argument {
    id: "PAIRS",
    name: "PAIRS",
    role: Some(Role::Pairs),
    text: "on each line the number of a page of the kernel and the number of the page of memory that has its bytes, both hexadecimal",
    ..WORD
};

pub(crate) const EVENTS: Argument = Argument {
    id: "EVENTS",
    name: "EVENTS",
    role: Some(Role::Events),
    text: "on each line an event, such as open 1 normal or panic",
    ..WORD
};

pub(crate) const HEAD: Argument = Argument {
    id: "HEAD",
    name: "HEAD",
    kind: Kind::ListWord,
    text: "the head word of the list: a hexadecimal number of 1 to 16 digits, without 0x",
    ..WORD
};

pub(crate) const LIMIT: Argument = Argument {
    id: "LIMIT",
    name: "LIMIT",
    kind: Kind::Count,
    text: "the maximum number of steps: a decimal number of 1 to 9 digits, at most 100000000",
    ..WORD
};

pub(crate) const NUMBER: Argument = Argument {
    id: "NUMBER",
    name: "NUMBER",
    kind: Kind::Count,
    text: "the number that the sample is made from: a decimal number of 1 to 18 digits",
    ..WORD
};

pub(crate) const ADDRESS: Argument = Argument {
    id: "ADDRESS",
    name: "ADDRESS",
    kind: Kind::Address,
    text: "the address of the crash headers: a hexadecimal number of 1 to 16 digits, without 0x, that is a multiple of 8 below 0x400000000000",
    ..WORD
};
