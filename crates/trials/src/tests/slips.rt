// Slips: which days are reserved, what ends a slip, and postings that are refused.
use super::meters::*;
use accounts::posting::post;
use accounts::refusal::PostRefusal;
use accounts::reservation::{reserve, withdraw};
use accounts::slip::Slip;
use amounts::row::Amounts;
use books::book::{Book, Lift};
use books::refusal::BookRefusal;
use runs::sheet::Sheet;
use std::process::Abort;
use std::test::Fail;

// The number of the answer to a reservation, 0 where the day is reserved.
fn answer<B: Book>(book: &mut B, day: u32) -> u32 {
    touch(book, day).err().map_or(0, BookRefusal::number)
}

// A day and the answer.
type Wish = (u32, u32);

// Days 9 and 20 are held, 9 is reserved, and every place is taken.
const IN_FULL: [Wish; 8] = [
    (0, 10),
    (9, 9),
    (19, 10),
    (20, 0),
    (65_535, 10),
    (65_536, 8),
    (65_545, 8),
    (u32::MAX, 8),
];

// The same with a place more.
const IN_ROOM: [Wish; 8] = [
    (0, 0),
    (9, 9),
    (19, 0),
    (20, 0),
    (65_535, 0),
    (65_536, 8),
    (65_545, 8),
    (u32::MAX, 8),
];

const IN_NONE: [Wish; 5] = [(0, 10), (9, 10), (65_535, 10), (65_536, 8), (u32::MAX, 8)];

fn check_wishes<B: Book>(rt: &impl Abort, book: &mut B, wishes: &[Wish]) {
    for (day, told) in wishes {
        assert_eq!(rt; answer(book, *day), *told, "day {day}");
    }
}

// Day 20 is billed and day 9 reserved, and so they are after each call.
struct Wishes(&'static [Wish]);

impl Trial for Wishes {
    fn try_on<A: Abort, B: Book>(&self, rt: &A, book: &mut B) -> Result<(), Fail> {
        let _ = bill(book, &FIRST.sheet(20, 96)?, &mut [JUNK; 64])?;
        let slip = reserve(book, 9)?;
        assert_eq!(rt; slip.day(), 9);
        for wish in self.0 {
            check_wishes(rt, book, &[*wish]);
            check_day(rt, book, 9, (true, false), &[]);
            check_day(rt, book, 20, (false, true), &FIRST_TOTALS);
        }
        let told = withdraw(book, slip);
        assert_eq!(rt; told, Ok(()));
        Ok(())
    }
}

struct NoPlace;

impl Trial for NoPlace {
    fn try_on<A: Abort, B: Book>(&self, rt: &A, book: &mut B) -> Result<(), Fail> {
        check_wishes(rt, book, &IN_NONE);
        Ok(())
    }
}

#[test]
fn reservations(rt: HostRuntime) -> Result<(), Fail> {
    try_both(&rt, 2, &Wishes(&IN_FULL))?;
    try_both(&rt, 3, &Wishes(&IN_ROOM))?;
    try_both(&rt, 0, &NoPlace)
}

// A slip's day that was lifted without its slip: as it was, in a book of one place.
struct Lifted;

impl Trial for Lifted {
    fn try_on<A: Abort, B: Book>(&self, rt: &A, book: &mut B) -> Result<(), Fail> {
        let slip = reserve(book, 9)?;
        let lifted = book.lift(9, Lift::AsUnbilled);
        let told = withdraw(book, slip);
        assert_eq!(rt; lifted, Ok(()));
        assert_eq!(rt; told, Err(BookRefusal::NotReserved));
        check_day(rt, book, 9, (false, false), &[]);
        let _ = bill(book, &FIRST.sheet(9, 96)?, &mut [JUNK; 64])?;
        let slip = reserve(book, 9)?;
        let lifted = book.lift(9, Lift::AsBilled);
        let told = withdraw(book, slip);
        assert_eq!(rt; lifted, Ok(()));
        assert_eq!(rt; told.err().map_or(0, BookRefusal::number), 17);
        check_day(rt, book, 9, (false, true), &FIRST_TOTALS);
        Ok(())
    }
}

#[test]
fn withdrawals(rt: HostRuntime) -> Result<(), Fail> {
    try_both(&rt, 1, &Lifted)
}

// Whether the slip's day, 9, is still reserved; the sheet's day, its intervals and the rows of the list of bills; and the answer.
type Try = (bool, u32, u32, usize, u32);

const TRIES: [Try; 23] = [
    (true, 9, 96, 64, 0),
    (true, 9, 96, 65, 0),
    (false, 9, 96, 64, 17),
    (false, 9, 96, 65, 17),
    (false, 8, 96, 64, 17),
    (false, 9, 95, 64, 17),
    (false, 9, 96, 63, 17),
    (false, 8, 0, 0, 17),
    (true, 8, 96, 64, 18),
    (true, 0, 96, 65, 18),
    (true, 65_535, 96, 64, 18),
    (true, 8, 95, 64, 18),
    (true, 8, 96, 63, 18),
    (true, 10, 0, 0, 18),
    (true, 9, 0, 64, 19),
    (true, 9, 1, 64, 19),
    (true, 9, 95, 64, 19),
    (true, 9, 95, 65, 19),
    (true, 9, 95, 63, 19),
    (true, 9, 0, 0, 19),
    (true, 9, 96, 63, 20),
    (true, 9, 96, 1, 20),
    (true, 9, 96, 0, 20),
];

// Posts what a row of the table says; the number of the answer, 0 where it is accepted.
fn posted<B: Book>(
    book: &mut B,
    slip: Slip,
    is_reserved: bool,
    sheet: &Sheet,
    bills: &mut [Amounts],
) -> u32 {
    if !is_reserved {
        let _ = book.lift(slip.day(), Lift::AsUnbilled);
    }
    let told = post(book, slip, sheet, bills);
    told.err().map_or(0, PostRefusal::number)
}

// A row of the table with its sheet, and the sheets that billed days 8 and 9 before it.
#[derive(Clone, Copy)]
struct Case<'a> {
    row: Try,
    sheet: &'a Sheet,
    eighth: &'a Sheet,
    ninth: &'a Sheet,
}

// After a refusal no bill is written, and the day is as it was before it was reserved: not held, or billed with these amounts.
fn check_try<B: Book>(
    rt: &impl Abort,
    book: &mut B,
    case: &Case<'_>,
    before: (bool, &[Row]),
) -> Result<(), Fail> {
    let (is_reserved, day, intervals, rows, told) = case.row;
    let (billed, amounts) = before;
    let mut list = [JUNK; 65];
    let bills = list.get_mut(..rows).unwrap_or(&mut []);
    assert_eq!(rt; bills.len(), rows);
    let slip = reserve(book, 9)?;
    let answer = posted(book, slip, is_reserved, case.sheet, bills);
    assert_eq!(rt;
        answer,
        told,
        "day {day}, {intervals} intervals, {rows} rows"
    );
    if told == 0 {
        check_day(rt, book, 9, (false, true), &DEARER_TOTALS);
    } else {
        check_unbilled(rt, &list);
        check_day(rt, book, 9, (false, billed), amounts);
    }
    Ok(())
}

// Of a day that was never billed, in a book with one place. Refused, it gives its place back, and another day can be reserved.
#[derive(Clone, Copy)]
struct Never<'a>(Case<'a>);

impl<'a> Trial for Never<'a> {
    fn try_on<A: Abort, B: Book>(&self, rt: &A, book: &mut B) -> Result<(), Fail> {
        check_try(rt, book, &self.0, (false, &[]))?;
        let (.., told) = self.0.row;
        let next = if told == 0 { 10 } else { 0 };
        assert_eq!(rt; answer(book, 77), next);
        assert_eq!(rt; answer(book, 9), 0);
        Ok(())
    }
}

// Of a day that was billed, and a day beside it, in a full book.
#[derive(Clone, Copy)]
struct Once<'a>(Case<'a>);

impl<'a> Trial for Once<'a> {
    fn try_on<A: Abort, B: Book>(&self, rt: &A, book: &mut B) -> Result<(), Fail> {
        assert_eq!(rt; bill(book, self.0.eighth, &mut [JUNK; 64])?, Ok(192));
        assert_eq!(rt; bill(book, self.0.ninth, &mut [JUNK; 64])?, Ok(192));
        check_try(rt, book, &self.0, (true, &FIRST_TOTALS))?;
        check_day(rt, book, 8, (false, true), &FIRST_TOTALS);
        assert_eq!(rt; answer(book, 77), 10);
        Ok(())
    }
}

#[test]
fn postings(rt: HostRuntime) -> Result<(), Fail> {
    let (eighth, ninth) = (FIRST.sheet(8, 96)?, FIRST.sheet(9, 96)?);
    for row in &TRIES {
        let (_, day, intervals, ..) = *row;
        let sheet = DEARER.sheet(day, intervals)?;
        assert_eq!(rt; sheet.intervals(), intervals);
        let case = Case {
            row: *row,
            sheet: &sheet,
            eighth: &eighth,
            ninth: &ninth,
        };
        try_both(&rt, 1, &Never(case))?;
        try_both(&rt, 2, &Once(case))?;
    }
    Ok(())
}

// The answers by their names.
const REFUSALS: [(PostRefusal, u32); 4] = [
    (PostRefusal::NotReserved, 17),
    (PostRefusal::OtherDay, 18),
    (PostRefusal::TooShort, 19),
    (PostRefusal::FewRows, 20),
];

#[test]
fn post_answers(rt: HostRuntime) {
    for (refusal, told) in &REFUSALS {
        assert_eq!(rt; refusal.number(), *told);
    }
}
