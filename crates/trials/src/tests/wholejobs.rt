// A whole job: a day reserved, worked and posted in one call.
use super::meters::*;
use super::record;
use super::smallday::BLANK;
use super::watches::Counter;
use accounts::reservation::{reserve, withdraw};
use books::book::Book;
use jobs::job::work_job;
use jobs::refusal::JobRefusal;
use rounding::rules::HalfAway;
use runs::sheet::Sheet;
use sources::records::RecordSource;
use std::process::Abort;
use std::test::Fail;

// The day, the interval that stops or 0, whether the day is reserved already, the rows of both lists; the answer's number, and how many
// intervals are told.
type Job = (u32, u32, bool, usize, usize, u32, u32);

const JOBS: [Job; 20] = [
    (9, 0, false, 256, 64, 0, 96),
    (9, 0, false, 257, 65, 0, 96),
    (9, 1, false, 256, 64, 15, 0),
    (9, 50, false, 256, 64, 15, 49),
    (9, 96, false, 256, 64, 15, 95),
    (9, 0, true, 256, 64, 9, 0),
    (9, 1, true, 255, 63, 9, 0),
    (65_536, 0, false, 256, 64, 8, 0),
    (u32::MAX, 1, false, 255, 63, 8, 0),
    (7, 0, false, 256, 64, 10, 0),
    (7, 1, false, 255, 63, 10, 0),
    (9, 0, false, 255, 64, 13, 0),
    (9, 0, false, 0, 64, 13, 0),
    (9, 0, false, 255, 63, 13, 0),
    (9, 1, false, 255, 64, 13, 0),
    (9, 0, false, 256, 63, 20, 96),
    (9, 0, false, 256, 0, 20, 96),
    (9, 1, false, 256, 63, 15, 0),
    (9, 50, false, 256, 63, 15, 49),
    (9, 96, false, 256, 63, 15, 95),
];

// Works a job over one of the tables' rows, and looks at the answer, what is told, and the bills.
fn check_answer<B: Book>(rt: &impl Abort, book: &mut B, case: &Job, accepted: &[Row]) {
    let (day, fault, _, warned, rows, number, last) = *case;
    let records = Meters { fault, ..DEARER }.records(day);
    let source = RecordSource::new(&records);
    let (mut list, mut bills) = ([BLANK; 257], [JUNK; 65]);
    let warnings = list.get_mut(..warned).unwrap_or(&mut []);
    let to = bills.get_mut(..rows).unwrap_or(&mut []);
    assert_eq!(rt; (warnings.len(), to.len()), (warned, rows));
    let mut counter = Counter::new();
    let told = work_job(book, day, HalfAway, &source, warnings, to, &mut counter);
    assert_eq!(rt; told.err().map_or(0, JobRefusal::number), number);
    counter.check(rt, &[last]);
    for warning in &list {
        assert_eq!(rt; *warning, BLANK);
    }
    if number == 0 {
        assert_eq!(rt; told, Ok(192));
        check_bills(rt, &bills, accepted);
    } else {
        check_unbilled(rt, &bills);
    }
}

// A job on a day with these amounts, billed or not. Where the day is reserved already, its slip is still good after it.
fn check_job<B: Book>(
    rt: &impl Abort,
    book: &mut B,
    case: &Job,
    before: (bool, &[Row]),
    accepted: &[Row],
) -> Result<(), Fail> {
    let (_, _, is_reserved, _, _, number, _) = *case;
    let (billed, amounts) = before;
    if is_reserved {
        let slip = reserve(book, 9)?;
        check_answer(rt, book, case, accepted);
        check_day(rt, book, 9, (true, billed), amounts);
        let told = withdraw(book, slip);
        assert_eq!(rt; told, Ok(()));
    } else {
        check_answer(rt, book, case, accepted);
    }
    if number == 0 {
        check_day(rt, book, 9, (false, true), &DEARER_TOTALS);
    } else {
        check_day(rt, book, 9, (false, billed), amounts);
    }
    Ok(())
}

// A row of the table, and the sheets that days 3 and 9 are billed by before it.
#[derive(Clone, Copy)]
struct Case<'a> {
    row: Job,
    third: &'a Sheet,
    ninth: &'a Sheet,
}

// On a book of two places, of which one has day 3. Day 9 was never billed; while another day wants a place, day 4 is reserved.
#[derive(Clone, Copy)]
struct Never<'a>(Case<'a>);

impl<'a> Trial for Never<'a> {
    fn try_on<A: Abort, B: Book>(&self, rt: &A, book: &mut B) -> Result<(), Fail> {
        assert_eq!(rt; bill(book, self.0.third, &mut [JUNK; 64])?, Ok(96));
        let (day, ..) = self.0.row;
        let full = if day == 7 {
            Some(reserve(book, 4)?)
        } else {
            None
        };
        let told = check_job(rt, book, &self.0.row, (false, &[]), &DEARER_TOTALS);
        if let Some(slip) = full {
            assert_eq!(rt; withdraw(book, slip), Ok(()));
        }
        check_day(rt, book, 3, (false, true), &MOVED_TOTALS);
        told
    }
}

// The same where day 9 is billed.
#[derive(Clone, Copy)]
struct Once<'a>(Case<'a>);

impl<'a> Trial for Once<'a> {
    fn try_on<A: Abort, B: Book>(&self, rt: &A, book: &mut B) -> Result<(), Fail> {
        assert_eq!(rt; bill(book, self.0.third, &mut [JUNK; 64])?, Ok(96));
        assert_eq!(rt; bill(book, self.0.ninth, &mut [JUNK; 64])?, Ok(192));
        let before = (true, FIRST_TOTALS.as_slice());
        check_job(rt, book, &self.0.row, before, &DEARER_BILLS)?;
        check_day(rt, book, 3, (false, true), &MOVED_TOTALS);
        Ok(())
    }
}

#[test]
fn single_jobs(rt: HostRuntime) -> Result<(), Fail> {
    let (third, ninth) = (MOVED.sheet(3, 96)?, FIRST.sheet(9, 96)?);
    for row in &JOBS {
        let case = Case {
            row: *row,
            third: &third,
            ninth: &ninth,
        };
        try_both(&rt, 2, &Never(case))?;
        try_both(&rt, 2, &Once(case))?;
    }
    Ok(())
}

// Without RTHSLAIEC nothing is paid for held power: 300 in each interval, and 150 twice.
const COSTLESS_TOTALS: [Row; 2] = [(0, [-28_800, 0, 14_400]), (63, [0, 0, 14_400])];

// A warning comes up in the first interval of each hour, and the watch sees them all.
struct Costless;

impl Trial for Costless {
    fn try_on<A: Abort, B: Book>(&self, rt: &A, book: &mut B) -> Result<(), Fail> {
        let mut records = FIRST.records(9);
        records[6] = record([0; 4], 0);
        let source = RecordSource::new(&records);
        let (mut list, mut bills) = ([BLANK; 256], [JUNK; 65]);
        let mut counter = Counter::new();
        let told = work_job(
            book,
            9,
            HalfAway,
            &source,
            &mut list,
            &mut bills,
            &mut counter,
        );
        assert_eq!(rt; told, Ok(192));
        counter.check(rt, &[96]);
        assert_eq!(rt; (counter.warnings, counter.hours), (24, 300));
        check_bills(rt, &bills, &COSTLESS_TOTALS);
        check_day(rt, book, 9, (false, true), &COSTLESS_TOTALS);
        Ok(())
    }
}

#[test]
fn watched_warnings(rt: HostRuntime) -> Result<(), Fail> {
    try_both(&rt, 1, &Costless)
}
