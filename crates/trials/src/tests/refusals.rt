// Calls refused without a look at the source, in their order.
use super::smallday::*;
use rounding::rules::HalfAway;
use sources::records::RecordSource;
use std::process::Abort;
use std::test::Fail;
use terms::determinant::Determinant;

// An interval, whether the list is one row short, and the number of the answer.
type Call = (u32, bool, u32);

// A run's answers to calls, and the sheet that it ends with.
fn check_calls(
    rt: &impl Abort,
    source: &RecordSource<'_>,
    calls: &[Call],
    worked: u32,
) -> Result<(), Fail> {
    let mut run = open(HalfAway)?;
    for (i, (interval, is_short, answer)) in calls.iter().enumerate() {
        let rows = if *is_short { 255 } else { 256 };
        let told = run.interval(source, *interval, &mut [BLANK; 256][..rows]);
        assert_eq!(rt; number(told), *answer, "call {i}");
    }
    check_sheet(rt, &run.close(), worked, &SHARES);
    Ok(())
}

const DUE: [Call; 13] = [
    (0, false, 12),
    (2, false, 12),
    (97, false, 12),
    (u32::MAX, false, 12),
    (0, true, 12),
    (2, true, 12),
    (1, true, 13),
    (1, false, 0),
    (1, false, 12),
    (1, true, 12),
    (3, false, 12),
    (2, true, 13),
    (2, false, 0),
];

#[test]
fn due_intervals(rt: HostRuntime) -> Result<(), Fail> {
    check_calls(&rt, &Day::small().source(), &DUE, 2)
}

// A wrong interval and a short list come before what is missing, and a stopped run before both.
const HALTING: [Call; 8] = [
    (2, false, 12),
    (1, true, 13),
    (1, false, 14),
    (1, false, 11),
    (2, false, 11),
    (0, false, 11),
    (1, true, 11),
    (97, true, 11),
];

#[test]
fn stopped_runs(rt: HostRuntime) -> Result<(), Fail> {
    let day = Day::small().without(Determinant::Vssvarpr, 0);
    check_calls(&rt, &day.source(), &HALTING, 0)
}

const EMPTY_LIST: [Call; 2] = [(1, false, 14), (1, false, 11)];

#[test]
fn no_records(rt: HostRuntime) -> Result<(), Fail> {
    check_calls(&rt, &RecordSource::new(&[]), &EMPTY_LIST, 0)
}
