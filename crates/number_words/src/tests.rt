//! Spellings that are read, and spellings that aren't.
use crate::{natural_bytes, whole_bytes, wide_whole_bytes};

#[test]
fn reads_naturals(rt: HostRuntime) {
    for (word, want) in [
        ("0", None),
        ("1", Some(1)),
        ("18446744073709551615", Some(u64::MAX)),
        ("18446744073709551616", None),
        ("01", None),
        ("+1", None),
        ("-1", None),
        ("1 ", None),
        ("", None),
        ("\u{661}", None),
    ] {
        assert_eq!(rt;
            natural_bytes(word.as_bytes(), 1, u64::MAX),
            want,
            "{word:?}"
        );
    }
}

#[test]
fn reads_whole_numbers(rt: HostRuntime) {
    for (word, want) in [
        ("0", Some(0)),
        ("-0", None),
        ("-7", Some(-7)),
        ("7", Some(7)),
        ("-8", None),
        ("8", None),
        ("+1", None),
        ("-01", None),
        ("--1", None),
        ("-", None),
    ] {
        assert_eq!(rt; whole_bytes(word.as_bytes(), 7), want, "{word:?}");
    }
    assert_eq!(rt; whole_bytes(b"1\xff", 7), None);
    assert_eq!(rt;
        wide_whole_bytes(b"-1099511627776", 1 << 40),
        Some(-1_099_511_627_776)
    );
    assert_eq!(rt; wide_whole_bytes(b"1099511627777", 1 << 40), None);
}
