// What stops a run: a number that is missing or out of range, and shares that are not all of the load.
use super::determinants::RANGES;
use super::smallday::*;
use intervals::fault::{Cause, Fault, Stop};
use rounding::rules::HalfAway;
use runs::refusal::IntervalRefusal;
use std::process::Abort;
use std::test::Fail;
use terms::determinant::Determinant;
use terms::question::Slot;

// Four intervals are worked, the fifth is over a day that stops it, and the sheet is as after the fourth.
fn check_stop(rt: &impl Abort, day: &Day, fault: Fault, warnings: usize) -> Result<(), Fail> {
    let mut run = open(HalfAway)?;
    check_intervals(rt, &mut run, 4);
    let told = run.interval(&day.source(), 5, &mut [BLANK; 256]);
    let next = run.interval(&Day::small().source(), 5, &mut [BLANK; 256]);
    let sheet = run.close();
    let stop = Stop {
        fault,
        slot: Slot {
            day: DAY,
            interval: 5,
        },
        warnings,
    };
    assert_eq!(rt; told, Err(IntervalRefusal::Halted(stop)));
    assert_eq!(rt; next, Err(IntervalRefusal::Stopped));
    check_sheet(rt, &sheet, 4, &SHARES);
    Ok(())
}

// The number of the answer to interval 1.
fn answer_to(day: &Day) -> Result<u32, Fail> {
    let first = work_first(HalfAway, &day.source())?;
    Ok(number(first.told))
}

const SHARES_NOT_WHOLE: Fault = Fault {
    cause: Cause::Shares,
    determinant: Determinant::Lrs,
    unit: 0,
};

// A determinant that no run does without, and the one after it.
const NEEDED: [(Determinant, Determinant); 5] = [
    (Determinant::Urllag, Determinant::Urllead),
    (Determinant::Urllead, Determinant::Rtvar),
    (Determinant::Hsl, Determinant::Lsl),
    (Determinant::Lsl, Determinant::Rtspp),
    (Determinant::Rtspp, Determinant::Rthslaiec),
];

// A number that no determinant takes.
const FAR: i64 = 1_000_000_000;

// Alone, and with the determinant after it out of range.
#[test]
fn missing(rt: HostRuntime) -> Result<(), Fail> {
    for (d, next) in &NEEDED {
        for unit in 0..2 {
            let fault = Fault::new(Cause::Missing, *d, unit);
            let day = Day::small().without(*d, unit);
            check_stop(&rt, &day, fault, 0)?;
            check_stop(&rt, &day.with(*next, unit, FAR), fault, 0)?;
        }
    }
    Ok(())
}

// The price is asked first, and the shares last.
#[test]
fn missing_price(rt: HostRuntime) -> Result<(), Fail> {
    let fault = Fault::new(Cause::Missing, Determinant::Vssvarpr, 0);
    let day = Day::small().without(Determinant::Vssvarpr, 0);
    check_stop(&rt, &day, fault, 0)?;
    check_stop(&rt, &day.with(Determinant::Owner, 0, 64), fault, 0)?;
    let fault = Fault::new(Cause::Missing, Determinant::Rtspp, 1);
    let share = Day::small()
        .without(Determinant::Rtspp, 1)
        .with(Determinant::Lrs, 0, FAR);
    check_stop(&rt, &share, fault, 0)
}

fn check_range(
    rt: &impl Abort,
    d: Determinant,
    unit: u32,
    low: i64,
    high: i64,
) -> Result<(), Fail> {
    let day = Day::small();
    let fault = Fault::new(Cause::OutOfRange, d, unit);
    for number in [low.wrapping_sub(1), high.wrapping_add(1)] {
        check_stop(rt, &day.with(d, unit, number), fault, 0)?;
    }
    let inside = if d == Determinant::Lrs { 16 } else { 0 };
    for number in [low, high] {
        assert_eq!(rt; answer_to(&day.with(d, unit, number))?, inside);
    }
    Ok(())
}

// At the ends of each range; a share at the ends of its range leaves the sum wrong, and one past them is named itself.
#[test]
fn ranges(rt: HostRuntime) -> Result<(), Fail> {
    for (d, _, low, high) in &RANGES {
        check_range(&rt, *d, 0, *low, *high)?;
        if *d != Determinant::Vssvarpr {
            check_range(&rt, *d, 1, *low, *high)?;
        }
    }
    check_range(&rt, Determinant::Lrs, 63, 0, 1_000_000)
}

// An owner is asked before an instruction, and a Resource without an owner is asked no more.
#[test]
fn owners(rt: HostRuntime) -> Result<(), Fail> {
    let idle = Day::small().without(Determinant::Vssvariol, 0);
    let fault = Fault::new(Cause::OutOfRange, Determinant::Owner, 0);
    check_stop(&rt, &idle.with(Determinant::Owner, 0, 64), fault, 0)?;
    let limit = idle.with(Determinant::Urllag, 0, FAR);
    assert_eq!(rt; answer_to(&limit)?, 0);
    let unowned = Day::small()
        .without(Determinant::Owner, 0)
        .with(Determinant::Vssvariol, 0, FAR);
    assert_eq!(rt; answer_to(&unowned)?, 0);
    Ok(())
}

// Entity 63's share, and the number of the answer.
const SUMS: [(i64, u32); 5] = [
    (499_999, 16),
    (500_000, 0),
    (500_001, 16),
    (1_000_000, 16),
    (1_000_001, 15),
];

#[test]
fn sums_of_shares(rt: HostRuntime) -> Result<(), Fail> {
    for (share, answer) in &SUMS {
        let day = Day::small().with(Determinant::Lrs, 63, *share);
        assert_eq!(rt; answer_to(&day)?, *answer);
        if *answer == 16 {
            check_stop(&rt, &day, SHARES_NOT_WHOLE, 0)?;
        }
    }
    let day = Day::small().without(Determinant::Lrs, 63);
    check_stop(&rt, &day, SHARES_NOT_WHOLE, 0)?;
    // Unit 64 is no entity, so its share is not asked.
    assert_eq!(rt; answer_to(&Day::small().with(Determinant::Lrs, 64, 1))?, 0);
    Ok(())
}

// Warning rows written before the stop are told.
#[test]
fn stops_after_warnings(rt: HostRuntime) -> Result<(), Fail> {
    let costless = Day::small().without(Determinant::Rthslaiec, 0);
    let fault = Fault::new(Cause::OutOfRange, Determinant::Rtvssaiec, 0);
    check_stop(
        &rt,
        &costless.with(Determinant::Rtvssaiec, 0, FAR),
        fault,
        1,
    )?;
    let both = costless.without(Determinant::Rtvssaiec, 0);
    let fault = Fault::new(Cause::Missing, Determinant::Urllag, 1);
    check_stop(&rt, &both.without(Determinant::Urllag, 1), fault, 2)?;
    let share = both
        .without(Determinant::Rthslaiec, 1)
        .with(Determinant::Lrs, 63, 499_999);
    check_stop(&rt, &share, SHARES_NOT_WHOLE, 3)
}
