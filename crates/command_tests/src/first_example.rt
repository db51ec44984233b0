//! The first example, for tests: its commands, its files, and what is made of them.

use crate::scene::Piece::{Bytes, List, Numbers, Page};
use crate::scene::{Files, Pieces, Step};

pub(crate) const NO_PAGES: Pieces = &[Bytes(b"KXMEM001"), Numbers(&[0])];

pub(crate) const ABC: Pieces = &[Bytes(b"abc")];

/// A memory without pages, a pool of three pages, and the kernel.
pub(crate) const FILES: Files = &[("m", NO_PAGES), ("p", &[Bytes(b"10-12\n")]), ("k", ABC)];

/// The memory after the load: the list and the source page.
pub(crate) const LOADED: Pieces = &[
    Bytes(b"KXMEM001"),
    Numbers(&[2]),
    List(0x11, &[0x2001, 0x12008, 4]),
    Page(0x12, b"abc"),
];

/// The memory after the run, which has the destination page also.
pub(crate) const RUN: Pieces = &[
    Bytes(b"KXMEM001"),
    Numbers(&[3]),
    Page(2, b"abc"),
    List(0x11, &[0x2001, 0x12008, 4]),
    Page(0x12, b"abc"),
];

/// The SHA-256 of "abc" (FIPS 180-4, the example of one block).
pub(crate) const ABC_DIGEST: &[u8] = &[
    0xba, 0x78, 0x16, 0xbf, 0x8f, 0x01, 0xcf, 0xea, 0x41, 0x41, 0x40, 0xde, 0x5d, 0xae, 0x22, 0x23,
    0xb0, 0x03, 0x61, 0xa3, 0x96, 0x17, 0x7a, 0x9c, 0xb4, 0x10, 0xff, 0x61, 0xf2, 0x00, 0x15, 0xad,
];

/// The numbers of the load's record: kind and mode, the head, the control and the swap page, the entry, three registers,
/// the regions and the digest, the number of segments, and of the one segment its address, its bytes of memory and the
/// number of its bytes.
pub(crate) const RECORD_NUMBERS: &[u64] = &[
    0, 0x11002, 0x10000, 0, 0x2000, 0, 0, 0, 0, 0, 1, 0x2000, 0x1000, 3,
];

/// The record of the load, of 155 bytes.
pub(crate) const RECORD: Pieces = &[
    Bytes(b"KXREC002"),
    Numbers(RECORD_NUMBERS),
    Bytes(ABC_DIGEST),
    Bytes(b"abc"),
];

pub(crate) const LOAD_TEXT: &str =
    "accepted words 4 links 1 pairs 1\nhead 11002 control 10000\nstart entry 2000 rax 0 rbx 0 rsi 0\n";

pub(crate) const BOOT_TEXT: &str =
    "accepted words 4 links 1 pairs 1\nhead 11002 control 10000\nstart entry 2000 rax 0 rbx 0 rsi 0\nran 4\n";

pub(crate) const BOOT: Step = Step {
    line: "boot --type raw --at 2000 m p o k",
    said: BOOT_TEXT,
    outputs: [Some(RUN), None, None],
};

pub(crate) const LOAD: Step = Step {
    line: "load --type raw --at 2000 m p o r k",
    said: LOAD_TEXT,
    outputs: [Some(LOADED), Some(RECORD), None],
};

/// What runs the load.
pub(crate) const EXEC: Step = Step {
    line: "exec o r x",
    said: BOOT_TEXT,
    outputs: [Some(LOADED), Some(RECORD), Some(RUN)],
};
