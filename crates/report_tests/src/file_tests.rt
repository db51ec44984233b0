//! What is said of files of the host that cannot be read or written.

use crate::told::{is_told, words_of};
use kexec_main::kexec;
use kexec_report::Failure;
use kx_edge::{HostShelf, MemorySink};
use std::fs;
use std::test::Fail;

// A memory without pages.
const NO_PAGES: &[u8] = b"KXMEM001\0\0\0\0\0\0\0\0";

// Whether `trace` ends so over the host's files: with this exit status, and this sentence.
fn ends_so(rt: &HostRuntime, line: &str, wanted: (u8, &str)) -> Result<bool, Fail> {
    let words = words_of(rt.alloc(), line)?;
    let mut shelf = HostShelf::new(rt);
    let mut sink = MemorySink::new(rt.alloc(), Vec::new(rt.alloc()));
    sink.reserve(4096)?;
    let status = kexec(rt.alloc(), &words, &mut shelf, &mut sink);
    is_told(rt, line, &status, Failure::of(shelf.cause(), None), wanted)
}

// Of the list the done word is the head. One file under two names is an input that would be lost. A full device takes
// no byte.
const ROWS: [(&str, (u8, &str)); 7] = [
    ("trace memory out 4 9", (0, "")),
    (
        "trace missing out 4 9",
        (
            3,
            "kexec: MEMORY \"missing\" cannot be read: No such file or directory (os error 2)",
        ),
    ),
    (
        "trace folder out 4 9",
        (
            3,
            "kexec: MEMORY \"folder\" cannot be read: Is a directory (os error 21)",
        ),
    ),
    (
        "trace memory missing/out 4 9",
        (
            4,
            "kexec: OUT \"missing/out\" cannot be written: No such file or directory (os error 2)",
        ),
    ),
    (
        "trace memory folder 4 9",
        (
            4,
            "kexec: OUT \"folder\" cannot be written: Is a directory (os error 21)",
        ),
    ),
    (
        "trace memory ./memory 4 9",
        (
            4,
            "kexec: OUT \"./memory\" cannot be written: it is the same file as MEMORY \"memory\"; give it a file of its own",
        ),
    ),
    (
        "trace memory /dev/full 4 9",
        (
            4,
            "kexec: OUT \"/dev/full\" cannot be written: No space left on device (os error 28)",
        ),
    ),
];

// The device of the last row is not there everywhere.
#[test]
fn files_that_cannot_be_read_or_written_are_told(rt: HostRuntime) -> Result<(), Fail> {
    fs::write(&rt, "memory", NO_PAGES)?;
    fs::create_dir(&rt, "folder")?;
    let count = if fs::metadata(&rt, "/dev/full").is_ok() {
        7
    } else {
        6
    };
    let rows = ROWS;
    for (line, wanted) in &rows[..count] {
        assert!(rt; ends_so(&rt, line, *wanted)?, "{line}");
    }
    assert!(rt; fs::read(&rt, "memory")?.as_slice() == NO_PAGES);
    Ok(())
}
