// What a field of a line stands for.
use detfile::fields::Fields;
use detfile::key::{Interval, Key, ranged_number};
use figures::marks::Mark;
use figures::numbers::{Fault, short_number, stored_number};
use std::process::Abort;
use std::test::Fail;
use terms::determinant::Determinant;

const SHORT: [(&[u8], Option<u32>); 9] = [
    (b"0", Some(0)),
    (b"7", Some(7)),
    (b"00012", Some(12)),
    (b"99999", Some(99_999)),
    (b"", None),
    (b"000012", None),
    (b"-1", None),
    (b"1 ", None),
    (b"1.", None),
];

#[test]
fn short_numbers(rt: HostRuntime) {
    for (field, number) in &SHORT {
        assert_eq!(rt; short_number(field), *number);
    }
}

// A field, the lowest and the highest number, and what the field writes.
const RANGED: [(&[u8], u32, u32, Result<u32, Fault>); 8] = [
    (b"1", 1, 96, Ok(1)),
    (b"00096", 1, 96, Ok(96)),
    (b"0", 1, 96, Err(Fault::Form)),
    (b"97", 1, 96, Err(Fault::Form)),
    (b"000001", 1, 96, Err(Fault::Form)),
    (b"", 0, 96, Err(Fault::Form)),
    (b"7", 7, 7, Ok(7)),
    (b"7", 8, 7, Err(Fault::Form)),
];

#[test]
fn ranged_numbers(rt: HostRuntime) {
    for (i, (field, low, high, number)) in RANGED.iter().enumerate() {
        assert_eq!(rt; ranged_number(field, *low, *high), *number, "case {i}");
    }
}

const MARKS: [(u8, Mark); 9] = [
    (b'*', Mark::Star),
    (b'-', Mark::Dash),
    (b'.', Mark::Point),
    (b'0', Mark::Digit(0)),
    (b'9', Mark::Digit(9)),
    (b'/', Mark::Other),
    (b':', Mark::Other),
    (b'\0', Mark::Other),
    (b'\xb2', Mark::Other),
];

#[test]
fn marks(rt: HostRuntime) {
    for (byte, mark) in &MARKS {
        assert_eq!(rt; Mark::from(*byte), *mark, "{byte}");
    }
}

// The first fields of a line, and the intervals 7 and 8: whether the key covers them.
const KEYS: [(&[u8], Key, bool, bool); 3] = [
    (
        b"1 2 7 4",
        Key {
            day: 1,
            unit: 2,
            interval: Interval::At(7),
        },
        true,
        false,
    ),
    (
        b"65535 127 00008 - -",
        Key {
            day: 65_535,
            unit: 127,
            interval: Interval::At(8),
        },
        false,
        true,
    ),
    (
        b"0 0 * 4",
        Key {
            day: 0,
            unit: 0,
            interval: Interval::Every,
        },
        true,
        true,
    ),
];

#[test]
fn keys(rt: HostRuntime) -> Result<(), Fail> {
    for (line, key, seventh, eighth) in &KEYS {
        let read = Key::try_from(Fields::cut(line))?;
        assert_eq!(rt; read, *key);
        assert_eq!(rt; read.interval.covers(7), *seventh);
        assert_eq!(rt; read.interval.covers(8), *eighth);
    }
    Ok(())
}

const NO_KEYS: [&[u8]; 6] = [
    b"",
    b"1 2",
    b"65536 2 7 4",
    b"1 128 7 4",
    b"1 2 97 4",
    b"1 2 - 4",
];

#[test]
fn no_keys(rt: HostRuntime) {
    for (i, line) in NO_KEYS.iter().enumerate() {
        assert_eq!(rt;
            Key::try_from(Fields::cut(line)),
            Err(Fault::Form),
            "case {i}"
        );
    }
}

const OWNERS: [(&[u8], Result<i64, Fault>); 6] = [
    (b"63", Ok(63)),
    (b"-0000000063", Ok(-63)),
    (b"1000000000", Ok(1_000_000_000)),
    (b"1000000001", Err(Fault::Beyond)),
    (b"-1000000001", Err(Fault::Beyond)),
    (b"63.0", Err(Fault::Form)),
];

const PRICES: [(&[u8], Result<i64, Fault>); 9] = [
    (b"2.65", Ok(265)),
    (b"2.6", Ok(260)),
    (b"2.06", Ok(206)),
    (b"2", Ok(200)),
    (b"-0", Ok(0)),
    (b"-0.01", Ok(-1)),
    (b"-10000000", Ok(-1_000_000_000)),
    (b"10000000.01", Err(Fault::Beyond)),
    (b"2.650", Err(Fault::Form)),
];

const LEVELS: [(&[u8], Result<i64, Fault>); 5] = [
    (b"7", Ok(7_000)),
    (b"7.5", Ok(7_500)),
    (b"-7.25", Ok(-7_250)),
    (b"7.125", Ok(7_125)),
    (b"7.0625", Err(Fault::Form)),
];

const SHARES: [(&[u8], Result<i64, Fault>); 11] = [
    (b"1", Ok(1_000_000)),
    (b"-0.5", Ok(-500_000)),
    (b"0.25", Ok(250_000)),
    (b"0.125", Ok(125_000)),
    (b"0.0625", Ok(62_500)),
    (b"0.03125", Ok(31_250)),
    (b"0.000001", Ok(1)),
    (b"999.999999", Ok(999_999_999)),
    (b"1000.000000", Ok(1_000_000_000)),
    (b"1000.000001", Err(Fault::Beyond)),
    (b"1000.0000001", Err(Fault::Form)),
];

fn check_stored(rt: &impl Abort, determinant: Determinant, cases: &[(&[u8], Result<i64, Fault>)]) {
    for (i, (field, stored)) in cases.iter().enumerate() {
        assert_eq!(rt; stored_number(field, determinant), *stored, "case {i}");
    }
}

#[test]
fn stored_numbers(rt: HostRuntime) {
    check_stored(&rt, Determinant::Owner, &OWNERS);
    check_stored(&rt, Determinant::Rtspp, &PRICES);
    check_stored(&rt, Determinant::Hsl, &LEVELS);
    check_stored(&rt, Determinant::Lrs, &SHARES);
}

#[test]
fn fault_numbers(rt: HostRuntime) {
    assert_eq!(rt; Fault::Form.number(), 4);
    assert_eq!(rt; Fault::Beyond.number(), 5);
}
