// The day of a file worked: through, as far as it goes, and not at all.
use super::meters::*;
use super::smallday::BLANK;
use super::watches::Counter;
use daytable::room::Room;
use detfile::refusal::FileRefusal;
use rounding::rules::Rule;
use runs::refusal::DayRefusal;
use runs::sheet::Sheet;
use settlement::dayfile::DayFile;
use settlement::reading::Reading;
use settlement::refusal::Unworked;
use settlement::working::work_file;
use std::process::Abort;
use std::test::Fail;
use terms::source::Source;

// Resource 0 is paid 300 and 1,000 in each interval; the price of interval 50 is out of range, or is not.
const FILES: [(&[u8], u32, i64); 2] = [
    (
        b"DAY UNIT INT OWNER VSSVARIOL URLLAG URLLEAD RTVAR HSL LSL RTSPP RTHSLAIEC RTVSSAIEC RTMG LRS VSSVARPR\n9 0 * 0 120 100 -100 28 400 100 36 30 28 80 0.5 1\n9 63 * - - - - - - - - - - - 0.5 -\n",
        0,
        96,
    ),
    (
        b"DAY UNIT INT OWNER VSSVARIOL URLLAG URLLEAD RTVAR HSL LSL RTSPP RTHSLAIEC RTVSSAIEC RTMG LRS VSSVARPR\n9 0 * 0 120 100 -100 28 400 100 36 30 28 80 0.5 1\n9 63 * - - - - - - - - - - - 0.5 -\n9 0 50 - - - - - - - - - - - - -0.01\n",
        15,
        49,
    ),
];

// Totals of so many intervals.
fn check_sheet(rt: &impl Abort, sheet: &Sheet, intervals: i64) {
    let total = sheet.total();
    assert_eq!(rt; i64::from(sheet.intervals()), intervals);
    assert_eq!(rt; total.reactive, intervals.wrapping_mul(-300));
    assert_eq!(rt; total.held, intervals.wrapping_mul(-1_000));
    assert_eq!(rt; total.load, intervals.wrapping_mul(1_300));
}

// Works a file, and looks at its sheet and at the number of the answer that the next interval was refused with.
fn check_working<S: Source>(
    rt: &impl Abort,
    reading: &Reading<'_, S>,
    number: u32,
    intervals: i64,
) {
    let mut counter = Counter::new();
    match work_file(reading, Rule::Even, &mut [BLANK; 256], &mut counter) {
        Ok(run) => {
            check_sheet(rt, &run.sheet, intervals);
            assert_eq!(rt;
                run.ended.err().map_or(0, |refusal| refusal.number()),
                number
            );
        }
        Err(refusal) => assert_eq!(rt; Some(refusal), None),
    }
    counter.check(rt, &[u32::try_from(intervals).unwrap_or(0)]);
}

#[test]
fn worked_files(rt: HostRuntime) -> Result<(), Fail> {
    for (bytes, number, intervals) in &FILES {
        let file = DayFile {
            bytes: *bytes,
            day: 9,
            fill: false,
        };
        check_working(&rt, &Reading::direct(file), *number, *intervals);
        let room = Room::new(rt.alloc())?;
        check_working(&rt, &Reading::tabled(room, file), *number, *intervals);
    }
    Ok(())
}

#[test]
fn unworked_files(rt: HostRuntime) -> Result<(), Fail> {
    let mut counter = Counter::new();
    let [(bytes, ..), _] = FILES;
    for (bytes, day, refusal) in &[
        (b"x".as_slice(), 65_536, Unworked::File(FileRefusal::Names)),
        (bytes, 65_536, Unworked::Day(DayRefusal::OutOfRange)),
    ] {
        let file = DayFile {
            bytes: *bytes,
            day: *day,
            fill: false,
        };
        let told = work_file(
            &Reading::direct(file),
            Rule::Away,
            &mut [BLANK; 256],
            &mut counter,
        );
        assert_eq!(rt; told.err(), Some(*refusal));
    }
    counter.check(&rt, &[]);
    Ok(())
}
