// Days side by side and books side by side: bills that are added up, and a slip that comes to another book.
use super::meters::*;
use accounts::posting::post;
use accounts::refusal::PostRefusal;
use accounts::reservation::{reserve, withdraw};
use accounts::slip::Slip;
use amounts::row::Amounts;
use books::book::{Book, Lift};
use books::place::Place;
use books::records::Records;
use books::refusal::BookRefusal;
use books::shelf::Shelf;
use imagebook::opening::{Opened, close};
use runs::sheet::Sheet;
use std::process::Abort;
use std::test::Fail;

// All bills of a day, added up for each entity and each type of amount.
#[derive(Clone, Copy)]
struct Ledger {
    sums: [Amounts; 64],
}

fn sum(a: Amounts, b: Amounts) -> Amounts {
    Amounts {
        reactive: a.reactive.wrapping_add(b.reactive),
        held: a.held.wrapping_add(b.held),
        load: a.load.wrapping_add(b.load),
    }
}

impl Ledger {
    fn new() -> Ledger {
        Ledger {
            sums: [Amounts::default(); 64],
        }
    }

    fn add(&mut self, bills: &[Amounts; 64]) {
        for (total, bill) in self.sums.iter_mut().zip(bills) {
            *total = sum(*total, *bill);
        }
    }

    // The sums are what a sheet says of each entity.
    fn check(&self, rt: &impl Abort, sheet: &Sheet) {
        for (entity, total) in (0..).zip(&self.sums) {
            assert_eq!(rt; sheet.amounts(entity), Some(*total), "entity {entity}");
        }
    }
}

// 795 and 1,000, and shares whose charges are rounded to 598 and 1,197.
const HALF_CENTS: Meters = Meters {
    owner: 1,
    price: 265,
    shares: [(0, 333_333), (2, 666_667)],
    ..FIRST
};

// The runs of days 5 and 6 that are posted together.
const ROUNDS: [(Meters, Meters); 5] = [
    (FIRST, MOVED),
    (DEARER, MOVED),
    (MOVED, FIRST),
    (FIRST, HALF_CENTS),
    (HALF_CENTS, DEARER),
];

// Two sheets, each under its slip, the first slip's last.
fn post_both<B: Book>(
    book: &mut B,
    slips: (Slip, Slip),
    sheets: [&Sheet; 2],
    to_one: &mut [Amounts; 64],
    to_other: &mut [Amounts; 64],
) -> [Result<u32, PostRefusal>; 2] {
    let (first, second) = slips;
    let [one, other] = sheets;
    let later = post(book, second, other, to_other);
    let last = post(book, first, one, to_one);
    [last, later]
}

// Both slips are out at once; they are posted in the other order.
fn post_round<B: Book>(
    rt: &impl Abort,
    book: &mut B,
    sheets: [&Sheet; 2],
    to_one: &mut [Amounts; 64],
    to_other: &mut [Amounts; 64],
) -> Result<(), Fail> {
    let [one, other] = sheets;
    let first = reserve(book, one.day())?;
    match reserve(book, other.day()) {
        Ok(second) => {
            let told = post_both(book, (first, second), sheets, to_one, to_other);
            assert_eq!(rt; told, [Ok(one.charged()), Ok(other.charged())]);
            Ok(())
        }
        Err(refusal) => {
            let _ = withdraw(book, first);
            Err(refusal)?
        }
    }
}

struct Interleaved;

impl Trial for Interleaved {
    fn try_on<A: Abort, B: Book>(&self, rt: &A, book: &mut B) -> Result<(), Fail> {
        let mut ledgers = [Ledger::new(); 2];
        for (five, six) in &ROUNDS {
            let (one, other) = (five.sheet(5, 96)?, six.sheet(6, 96)?);
            let (mut to_one, mut to_other) = ([JUNK; 64], [JUNK; 64]);
            post_round(rt, book, [&one, &other], &mut to_one, &mut to_other)?;
            for (ledger, rows) in ledgers.iter_mut().zip([&to_one, &to_other]) {
                ledger.add(rows);
            }
            for (ledger, sheet) in ledgers.iter().zip([&one, &other]) {
                ledger.check(rt, sheet);
            }
        }
        Ok(())
    }
}

#[test]
fn two_days(rt: HostRuntime) -> Result<(), Fail> {
    try_both(&rt, 2, &Interleaved)
}

// The first book's slip comes to the second, which is as it was; the first still has the day reserved.
fn check_stray<B: Book, C: Book>(
    rt: &impl Abort,
    book: &mut B,
    second: &mut C,
    before: (bool, &[Row]),
) -> Result<(), Fail> {
    let (billed, amounts) = before;
    let sheet = DEARER.sheet(9, 96)?;
    let mut bills = [JUNK; 65];
    let slip = reserve(book, 9)?;
    let told = post(second, slip, &sheet, &mut bills);
    assert_eq!(rt; told, Err(PostRefusal::NotReserved));
    check_unbilled(rt, &bills);
    check_day(rt, second, 9, (false, billed), amounts);
    check_day(rt, book, 9, (true, false), &[]);
    assert_eq!(rt; touch(book, 9), Err(BookRefusal::Reserved));
    Ok(())
}

// The day is not held in the second book, and then, for another slip, billed in it.
fn check_strays<B: Book, C: Book>(
    rt: &impl Abort,
    book: &mut B,
    second: &mut C,
) -> Result<(), Fail> {
    check_stray(rt, book, second, (false, &[]))?;
    let _ = bill(second, &FIRST.sheet(9, 96)?, &mut [JUNK; 64])?;
    let _ = book.lift(9, Lift::AsUnbilled);
    check_stray(rt, book, second, (true, &FIRST_TOTALS))?;
    let _ = book.lift(9, Lift::AsUnbilled);
    let slip = reserve(book, 9)?;
    let told = withdraw(second, slip);
    assert_eq!(rt; told, Err(BookRefusal::NotReserved));
    check_day(rt, second, 9, (false, true), &FIRST_TOTALS);
    check_day(rt, book, 9, (true, false), &[]);
    Ok(())
}

#[test]
fn two_books(rt: HostRuntime) -> Result<(), Fail> {
    for records_first in [true, false] {
        let records = vec![in rt.alloc(); Place::blank(0); 1]?;
        let bytes = vec![in rt.alloc(); 0_u8; 1544]?;
        let mut shelf = Shelf::<Records>::open(records);
        let Opened { mut book, fault } = Opened::new(bytes);
        let told = if records_first {
            check_strays(&rt, &mut shelf, &mut book)
        } else {
            check_strays(&rt, &mut book, &mut shelf)
        };
        shelf.close();
        close(book);
        assert_eq!(rt; fault, None);
        told?;
    }
    Ok(())
}
