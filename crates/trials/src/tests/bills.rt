// Postings that are accepted: what each entity is billed, a day's first time and after corrections.
use super::meters::*;
use accounts::reservation::{reserve, withdraw};
use books::book::Book;
use std::process::Abort;
use std::test::Fail;

// A day's run, its totals, what it bills after the one before it, and its charged shares.
type Stage = (Meters, &'static [Row], &'static [Row], u32);

// Nothing is paid, but the load's share is a charged one.
const IDLE: Meters = Meters {
    price: 0,
    market: 3_550,
    ..MOVED
};

// 795 and 1,000; the halves of 1,795 are 897.5, and 898 is 96 times 86,208.
const HALVES: Meters = Meters {
    owner: 63,
    price: 265,
    ..FIRST
};

const HALVES_TOTALS: [Row; 2] = [(0, [0, 0, 86_208]), (63, [-76_320, -96_000, 86_208])];

// The first time, dearer, the same again, without entity 0, without payments, and with the halves of a cent.
const STAGES: [Stage; 6] = [
    (FIRST, &FIRST_TOTALS, &FIRST_TOTALS, 192),
    (DEARER, &DEARER_TOTALS, &DEARER_BILLS, 192),
    (DEARER, &DEARER_TOTALS, &[], 192),
    (
        MOVED,
        &MOVED_TOTALS,
        &[
            (0, [31_680, 96_000, -63_840]),
            (5, [-31_680, -288_000, 0]),
            (63, [0, 0, 255_840]),
        ],
        96,
    ),
    (
        IDLE,
        &[],
        &[(5, [31_680, 288_000, 0]), (63, [0, 0, -319_680])],
        96,
    ),
    (HALVES, &HALVES_TOTALS, &HALVES_TOTALS, 192),
];

fn check_stage<B: Book>(
    rt: &impl Abort,
    book: &mut B,
    day: u32,
    stage: &Stage,
) -> Result<(), Fail> {
    let (meters, totals, rows, charged) = stage;
    let sheet = meters.sheet(day, 96)?;
    assert_eq!(rt; sheet.intervals(), 96);
    let mut bills = [JUNK; 65];
    assert_eq!(rt; bill(book, &sheet, &mut bills)?, Ok(*charged));
    check_bills(rt, &bills, rows);
    check_day(rt, book, day, (false, true), totals);
    Ok(())
}

// Days at both ends, each with all its corrections.
struct Corrected;

impl Trial for Corrected {
    fn try_on<A: Abort, B: Book>(&self, rt: &A, book: &mut B) -> Result<(), Fail> {
        for day in [65_535, 0] {
            for stage in &STAGES {
                check_stage(rt, book, day, stage)?;
            }
        }
        check_day(rt, book, 65_535, (false, true), &HALVES_TOTALS);
        Ok(())
    }
}

#[test]
fn corrections(rt: HostRuntime) -> Result<(), Fail> {
    try_both(&rt, 2, &Corrected)
}

// A correction that is withdrawn leaves the day as it was billed, and the next one bills against that.
struct Withdrawn;

impl Trial for Withdrawn {
    fn try_on<A: Abort, B: Book>(&self, rt: &A, book: &mut B) -> Result<(), Fail> {
        let [first, dearer, ..] = &STAGES;
        check_stage(rt, book, 9, first)?;
        let slip = reserve(book, 9)?;
        check_day(rt, book, 9, (true, true), &FIRST_TOTALS);
        assert_eq!(rt; withdraw(book, slip), Ok(()));
        check_day(rt, book, 9, (false, true), &FIRST_TOTALS);
        check_stage(rt, book, 9, dearer)
    }
}

#[test]
fn withdrawn_correction(rt: HostRuntime) -> Result<(), Fail> {
    try_both(&rt, 1, &Withdrawn)
}
