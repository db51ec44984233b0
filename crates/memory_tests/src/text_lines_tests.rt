//! Lines, cuts at a byte, and numbers of a text, each at the ends of its form.

use std::test::Fail;
use text_lines::{cut, decimal, next_line, number, two_numbers};

#[test]
fn lines_end_at_newlines(rt: HostRuntime) -> Result<(), Fail> {
    let rows = [
        ("10-12\n\n3", "10-12", "\n3"),
        ("\n3", "", "3"),
        ("3", "3", ""),
        ("\n", "", ""),
    ];
    for (text, line, rest) in rows {
        let found = next_line(text.as_bytes()).ok_or("a line")?;
        assert!(rt; found == (line.as_bytes(), rest.as_bytes()), "{text:?}");
    }
    assert!(rt; next_line(b"").is_none());
    Ok(())
}

#[test]
fn cuts_at_the_first_dash(rt: HostRuntime) -> Result<(), Fail> {
    let found = cut(b"10-12-14", b'-').ok_or("a dash")?;
    assert!(rt; found == (b"10".as_slice(), b"12-14".as_slice()));
    assert!(rt; cut(b"10", b'-').is_none());
    Ok(())
}

#[test]
fn numbers_have_one_to_sixteen_digits(rt: HostRuntime) {
    let rows = [
        ("3fFfFfFff", Some(0x3_ffff_ffff)),
        ("ffffffffffffffff", Some(u64::MAX)),
        ("0000000000000001", Some(1)),
        ("00000000000000001", None),
        ("", None),
        ("1g", None),
        ("0x1", None),
    ];
    for (text, wanted) in rows {
        assert_eq!(rt; number(text.as_bytes()), wanted, "{text}");
    }
}

#[test]
fn decimal_numbers_have_one_to_nine_digits(rt: HostRuntime) {
    let rows = [
        ("999999999", Some(999_999_999)),
        ("000000010", Some(10)),
        ("0000000001", None),
        ("", None),
        ("1a", None),
    ];
    for (text, wanted) in rows {
        assert_eq!(rt; decimal(text.as_bytes()), wanted, "{text}");
    }
}

#[test]
fn two_numbers_have_one_space_between(rt: HostRuntime) {
    let rows = [
        ("1f 2", Some((0x1f, 2))),
        ("1f  2", None),
        ("1f 2 ", None),
        ("1f", None),
    ];
    for (text, wanted) in rows {
        assert_eq!(rt; two_numbers(text.as_bytes()), wanted, "{text}");
    }
}
