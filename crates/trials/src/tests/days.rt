// The small day worked whole, and the ends of a day.
use super::smallday::*;
use amounts::row::Amounts;
use rounding::rules::{HalfAway, HalfEven};
use runs::day::RunDay;
use runs::working::Worked;
use std::test::Fail;
use terms::determinant::Determinant;

// None of them is due after the last.
const PAST: [u32; 4] = [97, 96, 1, 0];

// 96 times 795 and 663, 29,000, 7,615 twice and 15,229.
const WHOLE: Amounts = Amounts {
    reactive: -139_968,
    held: -2_784_000,
    load: 2_924_064,
};

const FIRST_WHOLE: Amounts = Amounts {
    reactive: -76_320,
    held: -2_784_000,
    load: 731_040,
};

#[test]
fn whole_day(rt: HostRuntime) -> Result<(), Fail> {
    let mut run = open(HalfAway)?;
    check_intervals(&rt, &mut run, 96);
    let day = Day::small();
    for interval in &PAST {
        let told = run.interval(&day.source(), *interval, &mut [BLANK; 256]);
        assert_eq!(rt; number(told), 12);
    }
    let sheet = run.close();
    check_sheet(&rt, &sheet, 96, &SHARES);
    assert_eq!(rt; sheet.charged(), 288);
    assert_eq!(rt; sheet.amounts(0), Some(FIRST_WHOLE));
    assert_eq!(rt; sheet.total(), WHOLE);
    assert_eq!(rt; sheet.amounts(64), None);
    Ok(())
}

const EVEN_SHARES: [Share; 3] = [
    (0, [-795, -29_000, 7_614]),
    (1, [-662, 0, 7_614]),
    (63, [0, 0, 15_228]),
];

#[test]
fn half_to_even(rt: HostRuntime) -> Result<(), Fail> {
    let first = work_first(HalfEven, &Day::small().source())?;
    let even = Worked {
        paid: -30_457,
        charges: 30_456,
        ..EACH
    };
    assert_eq!(rt; first.told, Ok(even));
    check_sheet(&rt, &first.sheet, 1, &EVEN_SHARES);
    Ok(())
}

// A day, and the number of the answer, 0 where there is such a day.
const DAYS: [(u32, u32); 4] = [(0, 0), (65_535, 0), (65_536, 7), (u32::MAX, 7)];

#[test]
fn days(rt: HostRuntime) {
    for (day, answer) in &DAYS {
        let refusal = RunDay::try_from(*day).err();
        assert_eq!(rt; refusal.map_or(0, |refusal| refusal.number()), *answer);
    }
}

#[test]
fn nothing_worked(rt: HostRuntime) -> Result<(), Fail> {
    let sheet = open(HalfAway)?.close();
    check_sheet(&rt, &sheet, 0, &SHARES);
    Ok(())
}

fn paid_of(day: &Day) -> Result<Option<i64>, Fail> {
    let first = work_first(HalfAway, &day.source())?;
    Ok(first.told.ok().map(|worked| worked.paid))
}

// A determinant, a unit, another number, and what is then paid: nothing instructed; at the limit; nothing delivered; a price below
// zero; output above the high limit, 2,800 * 340,000 - 3,000 * 300,000 = 52,000,000; an instruction the other way; the price's ends.
const OTHER_NUMBERS: [(Determinant, u32, i64, i64); 8] = [
    (Determinant::Vssvariol, 0, 0, -663),
    (Determinant::Vssvariol, 0, 100_000, -29_663),
    (Determinant::Rtvar, 1, 0, -29_795),
    (Determinant::Rtspp, 0, -5_000, -1_458),
    (Determinant::Rtmg, 0, 110_000, -14_458),
    (Determinant::Vssvariol, 1, 90_000, -29_795),
    (Determinant::Vssvarpr, 0, 0, -29_000),
    (Determinant::Vssvarpr, 0, 1_000_000, -5_529_000),
];

// The same of a missing one. Without RTMG, 5,000 * 400,000 less 3,000 * 300,000 + 2,800 * 100,000 is 820,000,000.
const MISSING: [(Determinant, u32, i64); 7] = [
    (Determinant::Owner, 0, -663),
    (Determinant::Vssvariol, 0, -663),
    (Determinant::Rtvar, 0, -29_663),
    (Determinant::Rthslaiec, 0, -1_458),
    (Determinant::Rtvssaiec, 0, -1_458),
    (Determinant::Rtmg, 0, -206_458),
    (Determinant::Rthslaiec, 1, -30_458),
];

#[test]
fn payments(rt: HostRuntime) -> Result<(), Fail> {
    for (d, unit, number, paid) in &OTHER_NUMBERS {
        let day = Day::small().with(*d, *unit, *number);
        assert_eq!(rt; paid_of(&day)?, Some(*paid), "{d} of {unit}: {number}");
    }
    for (d, unit, paid) in &MISSING {
        let day = Day::small().without(*d, *unit);
        assert_eq!(rt; paid_of(&day)?, Some(*paid), "{d} of {unit} missing");
    }
    Ok(())
}
