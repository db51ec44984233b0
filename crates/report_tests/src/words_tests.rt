//! What is said where the system does not give the words.

use kexec_report::{Ending, LONGEST_NAME, WordsError, name_called, read_words};
use std::env::{Env, FillError};
use std::test::Fail;

/// A process with these arguments, the program's name first, and no environment.
#[derive(Drop)]
struct Process {
    arguments: &'static [&'static [u8]],
}

impl Env for Process {
    fn arg(&self, i: usize, buf: &mut [u8]) -> Result<usize, FillError> {
        let Some(argument) = self.arguments.get(i) else {
            return Err(FillError::NotPresent);
        };
        let Some(front) = buf.get_mut(..argument.len()) else {
            return Err(FillError::TooLong);
        };
        front.copy_from_slice(argument);
        Ok(argument.len())
    }

    fn var(&self, _name: &str, _buf: &mut [u8]) -> Result<usize, FillError> {
        Err(FillError::NotPresent)
    }

    fn var_at(&self, _i: usize, _buf: &mut [u8]) -> Result<usize, FillError> {
        Err(FillError::NotPresent)
    }
}

#[test]
fn words_without_the_name_of_the_program_are_read(rt: HostRuntime) -> Result<(), Fail> {
    let process = Process {
        arguments: &[b"kexec", b"check", b"", b"\xc3\xbc"],
    };
    let Ok(words) = read_words(&(process, rt.alloc())) else {
        return Err(Fail::from("no words"));
    };
    assert_eq!(rt; words.len(), 3);
    assert!(rt; words[0].as_str() == "check" && words[1].is_empty() && words[2].as_str() == "ü");
    Ok(())
}

#[test]
fn the_first_argument_that_is_not_utf_8_is_found(rt: HostRuntime) {
    let rows: [(&[&[u8]], usize); 3] = [
        (&[b"kexec", b"check", b"m\xfc", b"\xff"], 2),
        (&[b"kexec", b"\xff", b"m"], 1),
        (&[b"k\xff", b"\xff"], 0),
    ];
    for (arguments, number) in rows {
        let words = read_words(&(Process { arguments }, rt.alloc()));
        let wanted = WordsError::NotText {
            number: Some(number),
        };
        assert!(rt; words.is_err_and(|error| error == wanted), "{number}");
    }
}

#[test]
fn without_words_there_is_a_sentence(rt: HostRuntime) -> Result<(), Fail> {
    for (error, wanted) in [
        (
            WordsError::Memory,
            "kexec: there is not enough memory for the arguments: free some and try again",
        ),
        (
            WordsError::NotText { number: Some(0) },
            "kexec: the name of the program is not valid UTF-8",
        ),
        (
            WordsError::NotText { number: Some(3) },
            "kexec: argument 3 is not valid UTF-8",
        ),
        (
            WordsError::NotText { number: None },
            "kexec: an argument is not valid UTF-8",
        ),
    ] {
        let ending = Ending::without_words("kexec", error);
        assert_eq!(rt; ending.code, 65);
        let notice = ending.notice.ok_or("a sentence")?;
        assert!(rt; !notice.is_asked_for());
        assert_eq!(rt; notice.to_string(rt.alloc())?.as_str(), wanted);
    }
    Ok(())
}

#[test]
fn the_program_is_called_by_the_last_part_of_its_name(rt: HostRuntime) {
    let rows: [(&[&[u8]], &str); 5] = [
        (&[b"/usr/libexec/kernelyet/kexec"], "kexec"),
        (&[b"kernelyet", b"check"], "kernelyet"),
        (&[b"k\xff"], "kexec"),
        (&[b"bin/"], "kexec"),
        (&[], "kexec"),
    ];
    for (arguments, wanted) in rows {
        let mut room = [0u8; LONGEST_NAME];
        let program = name_called(&Process { arguments }, &mut room);
        assert!(rt; program == wanted, "{program}");
    }
}
