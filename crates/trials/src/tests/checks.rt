// What the check of a file answers.
use detfile::check::{MOST_BYTES, check_file};
use detfile::columns::Columns;
use detfile::names::columns_of;
use std::alloc::Global;
use std::process::Abort;
use std::test::Fail;
use terms::determinant::Determinant;

// The number of value lines, or the answer's number and the line at fault.
type Told = Result<u32, (u32, u32)>;

// A file, or a part of one, and the answer to it.
type Case = (&'static [u8], Told);

fn told(file: &[u8]) -> Told {
    check_file(file).map_err(|refusal| (refusal.number(), refusal.line()))
}

// Each case's part of a file, put between `before` and `after`.
fn check_within<R: Abort + AllocGlobal>(
    rt: &R,
    before: &'static [u8],
    after: &'static [u8],
    cases: &[Case],
) -> Result<(), Fail> {
    for (i, (part, answer)) in cases.iter().enumerate() {
        let file = [before, *part, after].concat(rt.alloc())?;
        assert_eq!(rt; told(file.as_slice()), *answer, "case {i}");
    }
    Ok(())
}

// Whole files, none of them with a value line.
const NAMES: [Case; 35] = [
    (b"", Err((2, 1))),
    (b"\n", Err((2, 1))),
    (b"\nDAY UNIT INT RTSPP\n", Err((2, 1))),
    (b"DAY UNIT INT RTSPP", Err((2, 1))),
    (b"DAY UNIT INT RTSPP\n", Ok(0)),
    (b"DAY UNIT INT LRS RTSPP OWNER\n", Ok(0)),
    (
        b"DAY UNIT INT OWNER VSSVARIOL URLLAG URLLEAD RTVAR HSL LSL RTSPP RTHSLAIEC RTVSSAIEC RTMG LRS VSSVARPR\n",
        Ok(0),
    ),
    (
        b"DAY UNIT INT OWNER VSSVARIOL URLLAG URLLEAD RTVAR HSL LSL RTSPP RTHSLAIEC RTVSSAIEC RTMG LRS VSSVARPR OWNER\n",
        Err((2, 1)),
    ),
    (b"DAY UNIT INT RTSPP RTSPP\n", Err((2, 1))),
    (b"DAY UNIT INT OWNER RTSPP OWNER\n", Err((2, 1))),
    (b"DAY UNIT INT\n", Err((2, 1))),
    (b"DAY UNIT INT \n", Err((2, 1))),
    (b"DAY UNIT INT INT\n", Err((2, 1))),
    (b"DAY UNIT INT OTHER\n", Err((2, 1))),
    (b"DAY UNIT INT RTSP\n", Err((2, 1))),
    (b"DAY UNIT INT RTSPPP\n", Err((2, 1))),
    (b"DAY UNIT INT rtspp\n", Err((2, 1))),
    (b"DAY UNIT INT Rtspp\n", Err((2, 1))),
    (b"day UNIT INT RTSPP\n", Err((2, 1))),
    (b"UNIT DAY INT RTSPP\n", Err((2, 1))),
    (b"DAY INT UNIT RTSPP\n", Err((2, 1))),
    (b"DAY UNIT RTSPP INT\n", Err((2, 1))),
    (b"UNIT UNIT INT RTSPP\n", Err((2, 1))),
    (b"DAY DAY INT RTSPP\n", Err((2, 1))),
    (b"DAY UNIT UNIT RTSPP\n", Err((2, 1))),
    (b"DAY UNIT INT  RTSPP\n", Err((2, 1))),
    (b"DAY  UNIT INT RTSPP\n", Err((2, 1))),
    (b" DAY UNIT INT RTSPP\n", Err((2, 1))),
    (b"DAY UNIT INT RTSPP \n", Err((2, 1))),
    (b"DAY UNIT INT RTSPP\r\n", Err((2, 1))),
    (b"DAY\tUNIT INT RTSPP\n", Err((2, 1))),
    (b"DAY UNIT INT\tRTSPP\n", Err((2, 1))),
    (b"DAY UNIT INT RTSPP\0\n", Err((2, 1))),
    (b"\xef\xbb\xbfDAY UNIT INT RTSPP\n", Err((2, 1))),
    (b"DAY UNIT INT RTSPP,LRS\n", Err((2, 1))),
];

#[test]
fn names_line(rt: HostRuntime) -> Result<(), Fail> {
    check_within(&rt, b"", b"", &NAMES)
}

#[test]
fn columns(rt: HostRuntime) -> Result<(), Fail> {
    assert!(rt; Columns::none().as_slice().is_empty());
    let columns = columns_of(b"DAY UNIT INT LRS OWNER").ok_or("no names line")?;
    assert!(rt; matches!(columns.as_slice(), [Determinant::Lrs, Determinant::Owner]));
    Ok(())
}

// Below the names of two determinants: how many fields, and where they are cut.
const LINES: [Case; 28] = [
    (b"", Ok(0)),
    (b"1 2 3 4 5\n", Ok(1)),
    (b"1 2 3 4 5\n1 2 3 4 5\n1 2 * - -\n", Ok(3)),
    (b"1 2 3 4 5", Err((3, 2))),
    (b"1 2 3 4 5\n1 2 3 4 5", Err((3, 3))),
    (b"\n", Err((3, 2))),
    (b"\n1 2 3 4 5\n", Err((3, 2))),
    (b"1 2 3 4 5\n\n", Err((3, 3))),
    (b"1 2 3 4 5\n ", Err((3, 3))),
    (b"1 2 3 4\n", Err((3, 2))),
    (b"1 2 3 4 5 6\n", Err((3, 2))),
    (b" 1 2 3 4 5\n", Err((3, 2))),
    (b"1 2 3 4 5 \n", Err((3, 2))),
    (b"1  2 3 4 5\n", Err((3, 2))),
    (b"1 2 3  4 5\n", Err((3, 2))),
    (b" 2 3 4 5\n", Err((4, 2))),
    (b"1  3 4 5\n", Err((4, 2))),
    (b"1 2  4 5\n", Err((4, 2))),
    (b"1 2 3  5\n", Err((4, 2))),
    (b"1 2 3 4 \n", Err((4, 2))),
    (b"1\t2 3 4 5\n", Err((3, 2))),
    (b"1 2 3 4 5\t\n", Err((4, 2))),
    (b"1 2 3 4 5\r\n", Err((4, 2))),
    (b"1 2 3 4 5\r\n1 2 3 4 5\r\n", Err((4, 2))),
    (b"1 2 3 4 5\0\n", Err((4, 2))),
    (b"1 2 3 \x80 5\n", Err((4, 2))),
    (b"1 2 3 4 \xff\n", Err((4, 2))),
    (b"1 2 3 \xc2\xb2 5\n", Err((4, 2))),
];

// Two faults in one file: the earlier line, then the shape of the line, then the field to the left, then its form.
const FAULTS: [Case; 12] = [
    (b"1 2 97 4 5\n1 2 3\n", Err((4, 2))),
    (b"1 2 3\n1 2 97 4 5\n", Err((3, 2))),
    (b"1 2 3 4 5\n1 2 3 4 1001\n1 2 3 4", Err((5, 3))),
    (b"65536 128 97 x\n", Err((3, 2))),
    (b"65536 128 97 x 10000000000 5\n", Err((3, 2))),
    (b"1 2 3 4 x", Err((3, 2))),
    (b"1 2 97 10000001 5\n", Err((4, 2))),
    (b"1 2 3 x 1001\n", Err((4, 2))),
    (b"1 2 3 10000001 x\n", Err((5, 2))),
    (b"1 2 3 10000001.001 5\n", Err((4, 2))),
    (b"1 2 3 10000001.x 5\n", Err((4, 2))),
    (b"1 2 3 4 99999999999\n", Err((4, 2))),
];

#[test]
fn value_lines(rt: HostRuntime) -> Result<(), Fail> {
    let names = b"DAY UNIT INT RTSPP LRS\n";
    check_within(&rt, names, b"", &LINES)?;
    check_within(&rt, names, b"", &FAULTS)
}

// Day, unit and interval.
const KEYS: [Case; 37] = [
    (b"0 0 1", Ok(1)),
    (b"65535 127 96", Ok(1)),
    (b"00000 00000 00001", Ok(1)),
    (b"00007 00127 00096", Ok(1)),
    (b"1 2 *", Ok(1)),
    (b"65536 2 3", Err((4, 2))),
    (b"99999 2 3", Err((4, 2))),
    (b"000001 2 3", Err((4, 2))),
    (b"100000 2 3", Err((4, 2))),
    (b"1 128 3", Err((4, 2))),
    (b"1 65535 3", Err((4, 2))),
    (b"1 000002 3", Err((4, 2))),
    (b"1 2 0", Err((4, 2))),
    (b"1 2 00000", Err((4, 2))),
    (b"1 2 97", Err((4, 2))),
    (b"1 2 000003", Err((4, 2))),
    (b"1 2 **", Err((4, 2))),
    (b"1 2 *3", Err((4, 2))),
    (b"1 2 -", Err((4, 2))),
    (b"1 - 3", Err((4, 2))),
    (b"- 2 3", Err((4, 2))),
    (b"1 * 3", Err((4, 2))),
    (b"* 2 3", Err((4, 2))),
    (b"-1 2 3", Err((4, 2))),
    (b"1 -2 3", Err((4, 2))),
    (b"1 2 -3", Err((4, 2))),
    (b"+1 2 3", Err((4, 2))),
    (b"1.0 2 3", Err((4, 2))),
    (b"1 2. 3", Err((4, 2))),
    (b"1 2 3.", Err((4, 2))),
    (b"1a 2 3", Err((4, 2))),
    (b"1 2a 3", Err((4, 2))),
    (b"1 2 3a", Err((4, 2))),
    (b"1/ 2 3", Err((4, 2))),
    (b"1: 2 3", Err((4, 2))),
    (b"1\0 2 3", Err((4, 2))),
    (b"1 \xb2 3", Err((4, 2))),
];

#[test]
fn key_fields(rt: HostRuntime) -> Result<(), Fail> {
    check_within(&rt, b"DAY UNIT INT RTSPP\n", b" 4\n", &KEYS)
}

// A figure with up to two decimals.
const FIGURES: [Case; 41] = [
    (b"-", Ok(1)),
    (b"0", Ok(1)),
    (b"-0", Ok(1)),
    (b"2.6", Ok(1)),
    (b"2.65", Ok(1)),
    (b"-2.65", Ok(1)),
    (b"0000000000", Ok(1)),
    (b"0000000002.65", Ok(1)),
    (b"-0000000002.65", Ok(1)),
    (b"10000000", Ok(1)),
    (b"-10000000", Ok(1)),
    (b"10000000.00", Ok(1)),
    (b"-10000000.00", Ok(1)),
    (b"10000000.01", Err((5, 2))),
    (b"-10000000.01", Err((5, 2))),
    (b"9999999999.99", Err((5, 2))),
    (b"-9999999999", Err((5, 2))),
    (b"", Err((4, 2))),
    (b"*", Err((4, 2))),
    (b"--", Err((4, 2))),
    (b"--1", Err((4, 2))),
    (b"1-", Err((4, 2))),
    (b"+1", Err((4, 2))),
    (b".", Err((4, 2))),
    (b".5", Err((4, 2))),
    (b"-.5", Err((4, 2))),
    (b"5.", Err((4, 2))),
    (b"-5.", Err((4, 2))),
    (b"-.", Err((4, 2))),
    (b"2.650", Err((4, 2))),
    (b"2.000", Err((4, 2))),
    (b"1.2.3", Err((4, 2))),
    (b"1..2", Err((4, 2))),
    (b"2.-5", Err((4, 2))),
    (b"2,65", Err((4, 2))),
    (b"1e3", Err((4, 2))),
    (b"0x1", Err((4, 2))),
    (b"00000000000", Err((4, 2))),
    (b"10000000000", Err((4, 2))),
    (b"00000000002.65", Err((4, 2))),
    (b"2.6 5", Err((3, 2))),
];

#[test]
fn figures(rt: HostRuntime) -> Result<(), Fail> {
    check_within(&rt, b"DAY UNIT INT RTSPP\n1 2 3 ", b"\n", &FIGURES)
}

// What a file of one value line with `length` bytes before its line feed is told: the last field is far too long.
fn told_of_length(heap: Global, length: usize) -> Result<Told, Fail> {
    let mut line = b"1 2 3 ".to_vec(heap)?;
    line.resize(length, b'1')?;
    let file = [b"DAY UNIT INT RTSPP\n", line.as_slice(), b"\n"].concat(heap)?;
    Ok(told(file.as_slice()))
}

#[test]
fn long_lines(rt: HostRuntime) -> Result<(), Fail> {
    assert_eq!(rt; told_of_length(rt.alloc(), 7)?, Ok(1));
    assert_eq!(rt; told_of_length(rt.alloc(), 255)?, Err((4, 2)));
    assert_eq!(rt; told_of_length(rt.alloc(), 256)?, Err((3, 2)));
    Ok(())
}

// A file of the most bytes: lines of 32 bytes each, the first two together.
fn longest_file(heap: Global) -> Result<Vec<u8>, Fail> {
    let line = b"00001 00002 00003 0000000004.00\n";
    let mut file = b"DAY UNIT INT HSL\n1 2 3 00000004\n".to_vec(heap)?;
    file.extend_from_slice(line.repeat(heap, MOST_BYTES / 32 - 1)?.as_slice())?;
    Ok(file)
}

// One byte more is too long.
#[test]
fn long_files(rt: HostRuntime) -> Result<(), Fail> {
    let mut file = longest_file(rt.alloc())?;
    assert_eq!(rt; file.len(), MOST_BYTES);
    assert_eq!(rt; told(file.as_slice()), Ok(524_288));
    file.push(b'\n')?;
    assert_eq!(rt; told(file.as_slice()), Err((1, 0)));
    Ok(())
}
