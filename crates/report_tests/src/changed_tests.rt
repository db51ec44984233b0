//! What is said where a file was changed before it is looked at once more: no more than it shows then. What it shows
//! otherwise is told by crates/scenes/data/other-kinds.scenes and maps.scenes.

use crate::told::is_told;
use command_parts::{InputFault, Status};
use page_memory::MemFault;
use page_pool::PoolFault;
use plan_faults::PlanFault;
use segments::SegFault;
use std::fs;
use std::test::Fail;

// Files of these names and bytes: a memory file that was mended, a pool with 0x in another line than the one that was
// refused, a map, and a kernel of three pages.
const FILES: [(&str, &[u8]); 4] = [
    ("m", b"KXMEM001"),
    ("p", b"0x10\n11 13\n"),
    ("map", b"0-3fff : System RAM\n"),
    ("three", &[7; 8193]),
];

const OUTSIDE: &str =
    "the kernel has a page there that is not System RAM in the memory map \"map\"";

#[test]
fn a_file_that_changed_shows_nothing_else(rt: HostRuntime) -> Result<(), Fail> {
    for (name, bytes) in FILES {
        fs::write(&rt, name, bytes)?;
    }
    let memory = Status::Input {
        fault: InputFault::Mem {
            fault: MemFault::BadMagic,
        },
    };
    let pool = Status::Input {
        fault: InputFault::Pool {
            fault: PoolFault::BadLine { line: 2 },
        },
    };
    let kernel = Status::Plan {
        fault: PlanFault::Segments {
            fault: SegFault::NotRam { i: 0 },
        },
    };
    let rows = [
        (
            "boot m p o three",
            &memory,
            "MEMORY \"m\": ",
            "the memory file does not begin with KXMEM001",
        ),
        (
            "boot m p o three",
            &pool,
            "POOL \"p\": ",
            "line 2 of the pool file is neither a page number nor first-last in hexadecimal",
        ),
        (
            "boot --map map --type raw --at 1000 m p o three",
            &kernel,
            "--at 1000: ",
            OUTSIDE,
        ),
        (
            "boot --map map --type raw --at 3000 m p o missing",
            &kernel,
            "--at 3000: ",
            OUTSIDE,
        ),
    ];
    for (line, status, front, sentence) in rows {
        let wanted = format!(in rt.alloc(); "kexec: {front}{sentence}")?;
        assert!(rt;
            is_told(&rt, line, status, None, (status.code(), wanted.as_str()))?,
            "{wanted}"
        );
    }
    Ok(())
}
