// How bytes are cut into lines.
use detfile::lines::{Line, Lines};

// Some bytes and their lines.
type Case = (&'static [u8], &'static [Line<'static>]);

const CASES: [Case; 8] = [
    (b"", &[]),
    (b"\n", &[Line::Ended(b"")]),
    (b"ab", &[Line::Unended(b"ab")]),
    (b"ab\n", &[Line::Ended(b"ab")]),
    (b"a\nbc", &[Line::Ended(b"a"), Line::Unended(b"bc")]),
    (b"a\nbc\n", &[Line::Ended(b"a"), Line::Ended(b"bc")]),
    (
        b"\n\nc",
        &[Line::Ended(b""), Line::Ended(b""), Line::Unended(b"c")],
    ),
    (b"a\r\n\0\n", &[Line::Ended(b"a\r"), Line::Ended(b"\0")]),
];

#[test]
fn ended_and_unended(rt: HostRuntime) {
    for (i, (bytes, expected)) in CASES.iter().enumerate() {
        let mut lines = Lines::new(bytes);
        for line in *expected {
            assert_eq!(rt; lines.next(), Some(*line), "case {i}");
        }
        assert_eq!(rt; lines.next(), None, "case {i}");
        assert_eq!(rt; lines.next(), None, "case {i}");
    }
}
