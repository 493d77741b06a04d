// Numbers and sets: what a word reads as.
use script::{members, number, number8, number32};
use std::process::Abort;
use std::test::Fail;

fn check_number(rt: &impl Abort, word: &str, value: Option<u64>) {
    assert_eq!(rt; number(word.as_bytes()), value, "{}", word);
}

#[test]
fn numbers(rt: HostRuntime) {
    check_number(&rt, "0", Some(0));
    check_number(&rt, "7", Some(7));
    check_number(&rt, "0007", Some(7));
    check_number(&rt, "000000000000000000000000000000", Some(0));
    check_number(&rt, "1000000000", Some(1_000_000_000));
    check_number(&rt, "18446744073709551615", Some(u64::MAX));
    check_number(&rt, "018446744073709551615", Some(u64::MAX));
}

#[test]
fn no_numbers(rt: HostRuntime) {
    check_number(&rt, "", None);
    check_number(&rt, "18446744073709551616", None);
    check_number(&rt, "100000000000000000000", None);
    check_number(&rt, "+1", None);
    check_number(&rt, "-1", None);
    check_number(&rt, "1.0", None);
    check_number(&rt, "0x1", None);
    check_number(&rt, "1_000", None);
    check_number(&rt, "/", None);
    check_number(&rt, ":", None);
}

#[test]
fn narrow_numbers(rt: HostRuntime) {
    assert_eq!(rt; number8(b"0"), Some(0));
    assert_eq!(rt; number8(b"0255"), Some(255));
    assert_eq!(rt; number8(b"256"), None);
    assert_eq!(rt; number8(b""), None);
    assert_eq!(rt; number8(b"18446744073709551616"), None);
    assert_eq!(rt; number32(b"4294967295"), Some(u32::MAX));
    assert_eq!(rt; number32(b"4294967296"), None);
    assert_eq!(rt; number32(b"-1"), None);
}

fn check_set(rt: &impl Abort, word: &str, bits: u16) -> Result<(), Fail> {
    let Some(set) = members(word.as_bytes()) else {
        return Err(Fail::new(word));
    };
    assert_eq!(rt; set.0, bits, "{}", word);
    Ok(())
}

#[test]
fn sets(rt: HostRuntime) -> Result<(), Fail> {
    check_set(&rt, "{}", 0)?;
    check_set(&rt, "{0}", 0b1)?;
    check_set(&rt, "{15}", 0b1000_0000_0000_0000)?;
    check_set(&rt, "{1,2,3}", 0b1110)?;
    check_set(&rt, "{3,1,2}", 0b1110)?;
    check_set(&rt, "{1,1}", 0b10)?;
    check_set(&rt, "{01,002}", 0b110)?;
    check_set(&rt, "{0,1,2,3,4,5,6,7,8,9,10,11,12,13,14,15}", 0xffff)
}

#[test]
fn no_sets(rt: HostRuntime) {
    for word in &[
        "",
        "{",
        "}",
        "1",
        "{1",
        "1}",
        "}1{",
        "{16}",
        "{1,16}",
        "{1,}",
        "{,1}",
        "{,}",
        "{1,,2}",
        "{{1}}",
        "{-1}",
        "{a}",
        "{1 }",
        "{18446744073709551616}",
    ] {
        assert!(rt; members(word.as_bytes()).is_none(), "{}", word);
    }
}
