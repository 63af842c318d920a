// What a determinant file answers.
use super::{Ask, check_asks};
use filesource::source::FileSource;
use std::process::Abort;
use terms::answer::Answer;

fn check_file_asks(rt: &impl Abort, file: &[u8], asks: &[Ask]) {
    check_asks(rt, &FileSource::new(file), asks);
}

// The last line that covers the interval and has a figure decides.
const STAR_FIRST: [Ask; 3] = [
    ([8, 2, 1, 6], Answer::Figure(150)),
    ([8, 2, 1, 7], Answer::Figure(265)),
    ([8, 2, 1, 8], Answer::Figure(150)),
];

const STAR_LAST: [Ask; 2] = [
    ([8, 2, 1, 7], Answer::Figure(150)),
    ([8, 2, 1, 8], Answer::Figure(150)),
];

const TWO_INTERVALS: [Ask; 4] = [
    ([8, 2, 1, 1], Answer::Figure(-1)),
    ([8, 2, 1, 7], Answer::Figure(400)),
    ([8, 2, 1, 8], Answer::Null),
    ([8, 2, 1, 96], Answer::Figure(500)),
];

#[test]
fn last_line_decides(rt: HostRuntime) {
    check_file_asks(
        &rt,
        b"DAY UNIT INT RTSPP\n1 2 * 1.5\n1 2 7 2.65\n",
        &STAR_FIRST,
    );
    check_file_asks(
        &rt,
        b"DAY UNIT INT RTSPP\n1 2 7 2.65\n1 2 * 1.5\n",
        &STAR_LAST,
    );
    check_file_asks(
        &rt,
        b"DAY UNIT INT RTSPP\n1 2 7 3\n1 2 96 5\n1 2 7 4\n1 2 1 -0.01\n",
        &TWO_INTERVALS,
    );
}

// A dash leaves what an earlier line gave, and a column of dashes alone has no cut.
const DASHES: [Ask; 6] = [
    ([8, 2, 1, 7], Answer::Figure(200)),
    ([8, 2, 1, 8], Answer::Null),
    ([12, 2, 1, 7], Answer::Null),
    ([12, 2, 1, 8], Answer::Figure(500_000)),
    ([1, 2, 1, 7], Answer::NoCut),
    ([1, 2, 1, 8], Answer::NoCut),
];

#[test]
fn dashes(rt: HostRuntime) {
    check_file_asks(
        &rt,
        b"DAY UNIT INT RTSPP OWNER LRS\n1 2 7 2 - -\n1 2 8 - - 0.5\n1 2 * - - -\n",
        &DASHES,
    );
}

// Other determinants, units and days, and what lies outside the ranges.
const PLACES: [Ask; 14] = [
    ([1, 127, 65_535, 96], Answer::Figure(63)),
    ([1, 127, 65_535, 95], Answer::Null),
    ([12, 0, 0, 1], Answer::Figure(1)),
    ([12, 0, 0, 2], Answer::Null),
    ([1, 0, 0, 1], Answer::NoCut),
    ([2, 0, 0, 1], Answer::NoCut),
    ([12, 1, 0, 1], Answer::NoCut),
    ([12, 0, 1, 1], Answer::NoCut),
    ([0, 0, 0, 1], Answer::NoCut),
    ([14, 0, 0, 1], Answer::NoCut),
    ([12, 128, 0, 1], Answer::NoCut),
    ([12, 0, 65_536, 1], Answer::NoCut),
    ([12, 0, 0, 0], Answer::NoCut),
    ([12, 0, 0, 97], Answer::NoCut),
];

#[test]
fn places(rt: HostRuntime) {
    check_file_asks(
        &rt,
        b"DAY UNIT INT OWNER LRS\n00000 000 01 - 0.000001\n65535 127 96 63 -\n",
        &PLACES,
    );
}

// A refused file, one with no value line and an empty one have no cut anywhere.
const NOTHING: [Ask; 2] = [([8, 2, 1, 7], Answer::NoCut), ([8, 2, 1, 8], Answer::NoCut)];

#[test]
fn refused_files(rt: HostRuntime) {
    check_file_asks(
        &rt,
        b"DAY UNIT INT RTSPP\n1 2 7 2.65\n1 2 8 2.650\n",
        &NOTHING,
    );
    check_file_asks(&rt, b"DAY UNIT INT RTSPP\n1 2 7 2.65\n1 2 8 2.65", &NOTHING);
    check_file_asks(&rt, b"DAY UNIT INT RTSPP\n", &NOTHING);
    check_file_asks(&rt, b"", &NOTHING);
}

// A source tells what the check of its file told.
#[test]
fn verdicts(rt: HostRuntime) {
    let good = FileSource::new(b"DAY UNIT INT RTSPP\n1 2 7 2.65\n1 2 8 -\n");
    assert_eq!(rt; good.verdict().ok(), Some(2));
    let bad = FileSource::new(b"DAY UNIT INT RTSPP\n1 2 7 2.65\n1 2 8 2.650\n");
    let refusal = bad.verdict().err();
    assert_eq!(rt;
        refusal.map(|refusal| (refusal.number(), refusal.line())),
        Some((4, 3))
    );
}
