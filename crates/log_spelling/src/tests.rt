//! Fields that are spelled right and wrong.

use crate::{Kind, Part, bare_name, is_name, is_note, is_reference, number_of, part_of, trimmed};

#[test]
fn trims_blanks(rt: HostRuntime) {
    let cases: [(&[u8], &[u8]); 6] = [
        (b"", b""),
        (b" \t ", b""),
        (b"a", b"a"),
        (b" \ta b\t ", b"a b"),
        (b"\na\r", b"\na\r"),
        (b" +10", b"+10"),
    ];
    for (text, want) in cases {
        assert_eq!(rt; trimmed(text), want, "at {text:?}");
    }
}

#[test]
fn reads_numbers(rt: HostRuntime) {
    let cases: [(&[u8], Option<i64>); 15] = [
        (b"0", Some(0)),
        (b"-0", Some(0)),
        (b"+007", Some(7)),
        (b"-12", Some(-12)),
        (b"999999999999999999", Some(999_999_999_999_999_999)),
        (b"-999999999999999999", Some(-999_999_999_999_999_999)),
        (b"1000000000000000000", None),
        (b"0000000000000000001", None),
        (b"", None),
        (b"-", None),
        (b"+", None),
        (b"--1", None),
        (b"1a", None),
        (b" 1", None),
        (b"1.0", None),
    ];
    for (text, want) in cases {
        assert_eq!(rt; number_of(text), want, "at {text:?}");
    }
}

#[test]
fn knows_names(rt: HostRuntime) {
    let cases: [(&[u8], bool); 14] = [
        (b"a", true),
        (b"Z_9", true),
        (b"minimum", true),
        (b"Min", true),
        (b"abcdefghijklmnopqrstuvwxyz012345", true),
        (b"abcdefghijklmnopqrstuvwxyz0123456", false),
        (b"", false),
        (b"9x", false),
        (b"_a", false),
        (b"a.x", false),
        (b"a b", false),
        (b"min", false),
        (b"sqr", false),
        (b"\xc3\xa9", false),
    ];
    for (text, want) in cases {
        assert_eq!(rt; is_name(text), want, "at {text:?}");
    }
}

#[test]
fn knows_references(rt: HostRuntime) {
    let cases: [(&[u8], bool); 13] = [
        (b"a", true),
        (b"a.x", true),
        (b"a.y", true),
        (b"abcdefghijklmnopqrstuvwxyz012345.y", true),
        (b"abcdefghijklmnopqrstuvwxyz0123456.y", false),
        (b"a.z", false),
        (b"a.X", false),
        (b"a.x.y", false),
        (b"a. x", false),
        (b"a.", false),
        (b".x", false),
        (b"min.x", false),
        (b"", false),
    ];
    for (text, want) in cases {
        assert_eq!(rt; is_reference(text), want, "at {text:?}");
    }
}

#[test]
fn cuts_references(rt: HostRuntime) {
    let cases: [(&[u8], &[u8], Part); 6] = [
        (b"ab", b"ab", Part::Whole),
        (b"ab.x", b"ab", Part::X),
        (b"x.y", b"x", Part::Y),
        (b"xy", b"xy", Part::Whole),
        (b"a.z", b"a.z", Part::Whole),
        (b".x", b"", Part::X),
    ];
    for (text, name, part) in cases {
        assert_eq!(rt; bare_name(text), name, "at {text:?}");
        assert_eq!(rt; part_of(text), part, "at {text:?}");
    }
    assert_eq!(rt; Part::Whole.text(), b"".as_slice());
    assert_eq!(rt; Part::X.text(), b".x".as_slice());
    assert_eq!(rt; Part::Y.text(), b".y".as_slice());
}

#[test]
fn knows_kinds_and_notes(rt: HostRuntime) {
    let cases: [(&[u8], Option<Kind>); 9] = [
        (b"mission", Some(Kind::Mission)),
        (b"var", Some(Kind::Variable)),
        (b"range", Some(Kind::Range)),
        (b"range3", Some(Kind::Range3)),
        (b"exprv", Some(Kind::Exprv)),
        (b"cut", Some(Kind::Cut)),
        (b"Signal", None),
        (b"sonar", None),
        (b"", None),
    ];
    for (word, want) in cases {
        assert_eq!(rt; Kind::of(word), want, "at {word:?}");
    }
    assert!(rt; is_note(b"#"));
    assert!(rt; is_note(b"# a note"));
    assert!(rt; !is_note(b""));
    assert!(rt; !is_note(b"a#"));
}
