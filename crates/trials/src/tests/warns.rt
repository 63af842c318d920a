// The list of warnings.
use super::smallday::*;
use intervals::warning::Warning;
use rounding::rules::HalfAway;
use runs::run::Run;
use sources::records::{Record, RecordSource};
use std::process::Abort;
use std::test::Fail;
use terms::determinant::Determinant;
use terms::question::{LAST_INTERVAL, RESOURCES};

fn row(cost: Determinant, resource: u32, hour: u32) -> Warning {
    Warning {
        determinant: cost.into(),
        resource,
        day: DAY,
        hour,
    }
}

// How many rows a call says it has written.
fn rows_told(told: Told) -> Option<usize> {
    told.ok().map(|worked| worked.warnings)
}

// The rows, and then rows as they were before.
fn check_rows(rt: &impl Abort, list: &[Warning; 256], rows: &[Warning]) {
    for (k, row) in list.iter().enumerate() {
        let expected = rows.get(k).copied().unwrap_or(BLANK);
        assert_eq!(rt; *row, expected, "row {k}");
    }
}

// What is missing of the costless day, in an hour.
fn costless_rows(hour: u32) -> [Warning; 3] {
    [
        row(Determinant::Rthslaiec, 0, hour),
        row(Determinant::Rtvssaiec, 0, hour),
        row(Determinant::Rtvssaiec, 127, hour),
    ]
}

fn check_hours(rt: &impl Abort, run: &mut Run<HalfAway>, source: &RecordSource<'_>) {
    for interval in 1..=LAST_INTERVAL {
        let mut list = [BLANK; 256];
        let count = rows_told(run.interval(source, interval, &mut list));
        if interval % 4 == 1 {
            assert_eq!(rt; count, Some(3));
            check_rows(rt, &list, &costless_rows(interval / 4 + 1));
        } else {
            assert_eq!(rt; count, Some(0));
            check_rows(rt, &list, &[]);
        }
    }
}

// Resource 127 for Resource 1, with a cost missing of it and both of Resource 0.
fn costless() -> Day {
    Day::small()
        .without(Determinant::Rthslaiec, 0)
        .without(Determinant::Rtvssaiec, 0)
        .moved()
        .without(Determinant::Rtvssaiec, 127)
}

// 795 and 663 are paid: a quarter is 364.5, the half 729.
const COSTLESS: [Share; 4] = [
    (0, [-795, 0, 365]),
    (1, [-663, 0, 365]),
    (2, [0, 0, 0]),
    (63, [0, 0, 729]),
];

#[test]
fn first_of_the_hour(rt: HostRuntime) -> Result<(), Fail> {
    let mut run = open(HalfAway)?;
    check_hours(&rt, &mut run, &costless().source());
    let sheet = run.close();
    check_sheet(&rt, &sheet, 96, &COSTLESS);
    Ok(())
}

// Nothing is instructed, and the rows are written all the same. Resource 127 belongs to entity 63.
const IDLE: [Share; 2] = [(0, [0, 0, 166]), (63, [-663, 0, 332])];

#[test]
fn nothing_instructed(rt: HostRuntime) -> Result<(), Fail> {
    let day = costless()
        .with(Determinant::Vssvariol, 0, 0)
        .changed(Determinant::Owner, 127, 63);
    let first = work_first(HalfAway, &day.source())?;
    assert_eq!(rt; rows_told(first.told), Some(3));
    check_rows(&rt, &first.list, &costless_rows(1));
    check_sheet(&rt, &first.sheet, 1, &IDLE);
    Ok(())
}

// One cost of Resource 0 is missing, and the other is out of range.
#[test]
fn row_before_a_stop(rt: HostRuntime) -> Result<(), Fail> {
    let day = Day::small()
        .without(Determinant::Rthslaiec, 0)
        .with(Determinant::Rtvssaiec, 0, 1_000_001);
    let first = work_first(HalfAway, &day.source())?;
    assert_eq!(rt; number(first.told), 15);
    check_rows(&rt, &first.list, &[row(Determinant::Rthslaiec, 0, 1)]);
    Ok(())
}

// What every Resource of a full day has: neither cost, and nothing metered.
const UNPAID: [(Determinant, i64); 7] = [
    (Determinant::Owner, 63),
    (Determinant::Vssvariol, 120_000),
    (Determinant::Urllag, 100_000),
    (Determinant::Urllead, -100_000),
    (Determinant::Hsl, 400_000),
    (Determinant::Lsl, 100_000),
    (Determinant::Rtspp, 5_000),
];

fn full_day() -> [Record; 898] {
    let mut day = [all_day(Determinant::Vssvarpr, 0, 265); 898];
    for (rows, unit) in day.chunks_exact_mut(7).zip(0..RESOURCES as u32) {
        write_resource(rows, unit, &UNPAID);
    }
    day[897] = all_day(Determinant::Lrs, 63, 1_000_000);
    day
}

// Both costs of every Resource.
fn full_rows() -> [Warning; 256] {
    let mut rows = [BLANK; 256];
    for (pair, resource) in rows.chunks_exact_mut(2).zip(0..RESOURCES as u32) {
        pair[0] = row(Determinant::Rthslaiec, resource, 1);
        pair[1] = row(Determinant::Rtvssaiec, resource, 1);
    }
    rows
}

#[test]
fn full_list(rt: HostRuntime) -> Result<(), Fail> {
    let first = work_first(HalfAway, &RecordSource::new(&full_day()))?;
    assert_eq!(rt; rows_told(first.told), Some(256));
    check_rows(&rt, &first.list, &full_rows());
    Ok(())
}
