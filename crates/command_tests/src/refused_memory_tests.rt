//! Top calls in which one growth of memory is refused from outside, as scripts/refused-memory does. A growth of the
//! test's own that is refused ends the test quietly. What a call answered is printed after all of it was found right.

use crate::first_example::{BOOT, EXEC, FILES, LOAD, NO_PAGES};
use crate::scene::Piece::{Bytes, List, Numbers, Page, Repeated};
use crate::scene::{Files, Outputs, Pieces, Step, has_files, has_outputs, make_files, run, shelf};
use kexec_main::Status;
use kx_edge::MemorySink;
use std::alloc::{AllocError, Global};
use std::process::Abort;

// Whether the step was done with its text, or with no text was not done for want of memory.
fn is_done(rt: &impl Abort, step: &Step, status: Status, sink: MemorySink) -> bool {
    if let Status::Memory = status {
        assert!(rt; sink.said().is_empty());
        return false;
    }
    assert_eq!(rt; status.code(), 0);
    assert!(rt; sink.said() == step.said.as_bytes());
    true
}

// Runs commands one after the other until one wants memory. Each is Done, with its outputs and its text, or Memory, with
// no output of its own and no text; and all files stay.
fn play_in_want(
    rt: &(impl Abort + Print),
    alloc: Global,
    files: Files,
    steps: &[Step],
) -> Result<(), AllocError> {
    let mut shelf = shelf(alloc, make_files(alloc, files)?, &[])?;
    let mut outputs: Outputs = [None; 3];
    for step in steps {
        let (status, sink) = run(alloc, step.line, &mut shelf)?;
        let done = is_done(rt, step, status, sink);
        if done {
            outputs = step.outputs;
        }
        assert!(rt; has_files(alloc, &mut shelf, files)?, "{}", step.line);
        assert!(rt; has_outputs(alloc, &mut shelf, outputs)?, "{}", step.line);
        let _ = rt.println(if done { "Done" } else { "Memory" });
        if !done {
            return Ok(());
        }
    }
    Ok(())
}

#[test]
fn the_first_boot_is_done_or_wants_memory(rt: HostRuntime) {
    let _ = play_in_want(&rt, rt.alloc(), FILES, &[BOOT]);
}

const KEPT_FILES: Files = &[
    ("m", NO_PAGES),
    ("p", &[Bytes(b"10-13\n2\n")]),
    ("k", &[Repeated(b'x', 4097)]),
];

// The second run puts all back but the swap page, which then has what page 3 held: zeros.
const BACK: Pieces = &[
    Bytes(b"KXMEM001"),
    Numbers(&[3]),
    Numbers(&[2]),
    Repeated(b'x', 4096),
    List(0x12, &[0x2001, 0x2008, 0x13008, 4]),
    Page(0x13, b"x"),
];

const KEPT_BOOT: Step = Step {
    line: "boot --kept 2 --type raw --at 2000 m p o k",
    said: "accepted words 5 links 1 pairs 2\nhead 12002 control 10000 swap 11000\nstart entry 2000 rax 0 rbx 0 rsi 0\nran 5\nran 5\n",
    outputs: [Some(BACK), None, None],
};

#[test]
fn a_boot_there_and_back_is_done_or_wants_memory(rt: HostRuntime) {
    let _ = play_in_want(&rt, rt.alloc(), KEPT_FILES, &[KEPT_BOOT]);
}

#[test]
fn a_load_and_its_exec_are_done_or_want_memory(rt: HostRuntime) {
    let _ = play_in_want(&rt, rt.alloc(), FILES, &[LOAD, EXEC]);
}
