//! The table: the commands, each with what is said of it and its arguments in their order; and what is said of files.

use crate::options::{
    AT, BELOW, COMMAND, ENTRY, INITRD, KEPT, MAP, NEEDED_AT, NEEDED_MAP, NOTES, PURGATORY, RUNS,
    SWAP, TWICE, TYPE,
};
use crate::positional::{
    ADDRESS, CORE_OUT, CRASH_KERNEL, DRILLED_MEMORY, DRILLED_OUT, EVENTS, HEAD, KERNEL, LIMIT,
    LOADED_MEMORY, LOADED_OUT, MEMORY, MIGRATED_OUT, MODULES, NUMBER, PAIRS, POOL, RECORD,
    RECORD_OUT, RUN_OUT, STOPPED_MEMORY, TRACED_MEMORY, TRACED_OUT,
};
use crate::roles::{LOAD_RECORD, MEMORY_FILE, POOL_FILE};
use crate::table::{Argument, Command};

const OPTION_NOTE: &str =
    "Each option is given at most once, as --map FILE or --map=FILE, anywhere before an argument --, after which nothing is an option.";

const ADDRESS_NOTE: &str = "ADDRESS is a hexadecimal number of 1 to 16 digits, without 0x.";

const CRASH_NOTE: &str =
    "The crash kernel is told where its headers lie, and gets no memory below 1 MiB: add memmap=0x9e000@0x1000 to its command line, and memmap=4K$0xADDRESS with the address of the headers.";

/// What the program does.
pub(crate) const PROGRAM: &str =
    "Loads a new kernel into a memory that is kept in a file, as kexec_load(2) and the kernel's kexec core do, checks the list of page copies, and runs it.";

/// The length of the longest name of a command, and of a kind of file.
pub(crate) const LONGEST_NAME: usize = BOOT_RESIDENT.name.len();

pub(crate) const LONGEST_FILE: usize = FILES[0].0.len();

/// The kinds of files, each with what it holds.
pub(crate) const FILES: [(&str, &str); 4] = [
    (
        MEMORY_FILE,
        "KXMEM001, the number of pages, and each page that is not all zero",
    ),
    (
        POOL_FILE,
        "free pages; on each line a hexadecimal page number or a range first-last",
    ),
    (
        LOAD_RECORD,
        "KXREC002 or KXREC001, the head word, the start values and the segments",
    ),
    (
        "memory map",
        "the text of /proc/iomem, which Linux shows in full only to root",
    ),
];

// The arguments of the commands that take a load and write no file.
const LOADED: &[Argument] = &[LOADED_MEMORY, RECORD];

pub(crate) const BOOT: Command = Command {
    name: "boot",
    brief: "load a kernel and run it",
    about: "Loads a kernel, checks the list of page copies, runs it, and writes the memory after the last run.",
    notes: &[ADDRESS_NOTE, OPTION_NOTE],
    arguments: &[
        MEMORY, POOL, RUN_OUT, KERNEL, MODULES, RUNS, BELOW, MAP, TYPE, AT, ENTRY, COMMAND, INITRD,
        PURGATORY,
    ],
};

pub(crate) const LOAD: Command = Command {
    name: "load",
    brief: "load a kernel and write its load record",
    about: "Loads a kernel, checks the list of page copies, and writes the memory after the load and the load record, which check, dump and exec read.",
    notes: &[ADDRESS_NOTE, OPTION_NOTE],
    arguments: &[
        MEMORY, POOL, LOADED_OUT, RECORD_OUT, KERNEL, MODULES, KEPT, BELOW, MAP, TYPE, AT, ENTRY,
        COMMAND, INITRD, PURGATORY,
    ],
};

pub(crate) const LOAD_PANIC: Command = Command {
    name: "load-panic",
    brief: "load a crash kernel and write its load record",
    about: "Loads a crash kernel, a bzImage, into the area that the memory map names Crash kernel, and writes the memory after the load and the load record, which check, dump and exec read.",
    notes: &[CRASH_NOTE, OPTION_NOTE],
    arguments: &[
        MEMORY,
        LOADED_OUT,
        RECORD_OUT,
        CRASH_KERNEL,
        NEEDED_MAP,
        COMMAND,
        INITRD,
        PURGATORY,
        NOTES,
    ],
};

pub(crate) const CHECK: Command = Command {
    name: "check",
    brief: "say whether the list of a load record is accepted",
    about: "Says whether the list of a load record is accepted in a memory, or names its first word with a fault. It writes no file.",
    notes: &[],
    arguments: LOADED,
};

pub(crate) const DUMP: Command = Command {
    name: "dump",
    brief: "print the words and the segments of a load record",
    about: "Prints the words of a load record's list and its segments, with the SHA-256 of each. It writes no file.",
    notes: &[],
    arguments: LOADED,
};

pub(crate) const EXEC: Command = Command {
    name: "exec",
    brief: "check the list of a load record and run it",
    about: "Checks the list of a load record in a memory, runs it, and writes the memory after the last run.",
    notes: &[],
    arguments: &[LOADED_MEMORY, RECORD, RUN_OUT, TWICE],
};

pub(crate) const TRACE: Command = Command {
    name: "trace",
    brief: "run a list for some steps, whether it is accepted or not",
    about: "Runs a list from its head word on, whether it is accepted or not, says how it ended, and writes the memory after the steps.",
    notes: &[],
    arguments: &[TRACED_MEMORY, TRACED_OUT, HEAD, LIMIT, SWAP],
};

pub(crate) const MIGRATE: Command = Command {
    name: "migrate",
    brief: "write a load record anew, as version 2",
    about: "Reads a load record of version 1 or 2, and writes it as version 2, which has the SHA-256 of each segment.",
    notes: &[],
    arguments: &[RECORD, MIGRATED_OUT],
};

pub(crate) const SAMPLE: Command = Command {
    name: "sample",
    brief: "load and run a sample that is made from a number",
    about: "Makes a memory, a pool and segments from a number, loads and runs them, and prints the SHA-256 of the memory after the run. It reads and writes no file.",
    notes: &[],
    arguments: &[NUMBER],
};

pub(crate) const BOOT_RESIDENT: Command = Command {
    name: "boot-resident",
    brief: "load and run a raw kernel, some of whose pages lie in memory already",
    about: "Loads a raw kernel, some of whose pages lie in memory already, without copying these before the run, runs it, and writes the memory after the run.",
    notes: &[],
    arguments: &[MEMORY, POOL, RUN_OUT, KERNEL, PAIRS, NEEDED_AT],
};

pub(crate) const DRILL: Command = Command {
    name: "drill",
    brief: "apply events of several callers one after another",
    about: "Applies events of several callers one after another to one memory and one pool, prints the reply to each, and writes the memory after the last event.",
    notes: &[],
    arguments: &[DRILLED_MEMORY, POOL, DRILLED_OUT, EVENTS, NEEDED_MAP],
};

pub(crate) const CORE: Command = Command {
    name: "core",
    brief: "write the core file of a stopped machine's memory",
    about: "Writes the memory of a stopped machine as one ELF core file, by the crash headers in that memory: the notes of all processors, and a PT_LOAD for each range of memory.",
    notes: &[
        "The rows of the crash headers hold at most 512 MiB together, pages of zeros included: the memory of a machine of 8 GiB cannot be written whole.",
    ],
    arguments: &[STOPPED_MEMORY, CORE_OUT, ADDRESS],
};
