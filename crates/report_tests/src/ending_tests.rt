//! How commands end that want memory, or one of whose devices or files fails as no file of a scene can: the exit status, and
//! what is said.

use crate::told::is_told;
use command_parts::Status;
use command_table::Role;
use kexec_report::Failure;
use kx_edge::HostCause;
use std::io;
use std::test::Fail;

// Standard output failed with this number of Linux's, of errno-base.h; with no number nothing is known.
fn output_failure(number: Option<i32>) -> Option<Failure> {
    Failure::of(None, Some(io::Error::from_raw_os_error(number?)))
}

// The same of a file.
fn file_failure(number: i32) -> Option<Failure> {
    let error = io::Error::from_raw_os_error(number);
    Failure::of(Some(HostCause::System { error }), None)
}

// A full device has number 28. A pipe whose reader is gone has number 32, and then there is nothing to say of the text; any
// other answer is told all the same.
#[test]
fn a_text_that_is_not_said_is_told_unless_nobody_reads_it(rt: HostRuntime) -> Result<(), Fail> {
    let memory = "kexec: there is not enough memory for the work: free some and try again";
    let unknown = "kexec: standard output cannot be written: it must be open and have room";
    let full = "kexec: standard output cannot be written: No space left on device (os error 28)";
    let rows = [
        (Status::Unsaid, None, (5, unknown)),
        (Status::Unsaid, Some(28), (5, full)),
        (Status::Unsaid, Some(32), (5, "")),
        (Status::Done, Some(32), (0, "")),
        (Status::Memory, Some(32), (12, memory)),
        (Status::Memory, None, (12, memory)),
    ];
    for (status, number, wanted) in &rows {
        let failure = output_failure(*number);
        assert!(rt;
            is_told(&rt, "dump m r", status, failure, *wanted)?,
            "{}, {number:?}",
            status.code()
        );
    }
    Ok(())
}

// A pipe in place of a file, number 32, is a file that was not written.
#[test]
fn what_the_system_said_of_a_file_is_told(rt: HostRuntime) -> Result<(), Fail> {
    let rows = [
        (
            3,
            5,
            "kexec: POOL \"p\" cannot be read: Input/output error (os error 5)",
        ),
        (
            4,
            28,
            "kexec: OUT \"p\" cannot be written: No space left on device (os error 28)",
        ),
        (
            4,
            32,
            "kexec: OUT \"p\" cannot be written: Broken pipe (os error 32)",
        ),
    ];
    for (code, number, sentence) in rows {
        let name = String::from_str(rt.alloc(), "p")?;
        let (line, status) = if code == 3 {
            (
                "boot m p o k",
                Status::Unread {
                    role: Role::Pool,
                    name,
                },
            )
        } else {
            (
                "boot m q p k",
                Status::Unwritten {
                    role: Role::MemoryOut,
                    name,
                },
            )
        };
        let failure = file_failure(number);
        assert!(rt;
            is_told(&rt, line, &status, failure, (code, sentence))?,
            "{sentence}"
        );
    }
    Ok(())
}

// The words of commands that give one file several times, the role in which it was refused, and the word of that role.
const ROLES: [(&str, Role, &str); 9] = [
    ("boot f f o k", Role::Memory, "MEMORY"),
    ("boot f f o k", Role::Pool, "POOL"),
    ("boot --initrd f --map f m p o f f", Role::Map, "--map"),
    ("boot --initrd f --map f m p o f f", Role::Kernel, "KERNEL"),
    (
        "boot --initrd f --map f m p o f f",
        Role::Initrd,
        "--initrd",
    ),
    ("boot --initrd f --map f m p o f f", Role::Module, "MODULES"),
    (
        "boot --purgatory f m p o f k f",
        Role::Purgatory,
        "--purgatory",
    ),
    ("boot --purgatory f m p o k k f", Role::Module, "MODULES"),
    ("check f f", Role::Record, "RECORD"),
];

// How a command ends that could not read this file, and one for which it is too long.
fn refusals_of(rt: &HostRuntime, role: Role, name: &str) -> Result<(Status, Status), Fail> {
    let unread = Status::Unread {
        role,
        name: String::from_str(rt.alloc(), name)?,
    };
    let long = Status::TooLong {
        role,
        name: String::from_str(rt.alloc(), name)?,
        limit: 9,
    };
    Ok((unread, long))
}

#[test]
fn a_file_that_several_words_give_is_told_by_its_role(rt: HostRuntime) -> Result<(), Fail> {
    for (line, role, word) in ROLES {
        let (unread, long) = refusals_of(&rt, role, "f")?;
        let sentence = format!(in rt.alloc();
            "kexec: {word} \"f\" cannot be read: it must exist and be readable to its end"
        )?;
        let budget = if matches!(role, Role::Kernel | Role::Initrd | Role::Module) {
            "; the kernel, the initrd and the modules may have 268435456 bytes together"
        } else {
            ""
        };
        let limit = format!(in rt.alloc();
            "kexec: {word} \"f\" is longer than 9 bytes, which is the most that it can have here{budget}"
        )?;
        assert!(rt;
            is_told(&rt, line, &unread, None, (3, sentence.as_str()))?,
            "{sentence}"
        );
        assert!(rt;
            is_told(&rt, line, &long, None, (6, limit.as_str()))?,
            "{limit}"
        );
    }
    Ok(())
}
