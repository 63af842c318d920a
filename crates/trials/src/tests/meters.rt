// Meters of one Resource that sheets are made from, and what is told of books and bills in one line each.
//
// The Resource is the first of the small day, under a price and an RTSPP of its own. Each interval pays its owner 3 times the price, and 20 times
// RTSPP less 71,000; the load is charged both together, by two shares.
use super::record;
use super::smallday::BLANK;
use accounts::posting::post;
use accounts::refusal::PostRefusal;
use accounts::reservation::{reserve, withdraw};
use amounts::row::Amounts;
use books::account::Account;
use books::book::Book;
use books::place::Place;
use books::records::Records;
use books::refusal::BookRefusal;
use books::shelf::Shelf;
use imagebook::opening::{Opened, close};
use rounding::rules::HalfAway;
use runs::day::RunDay;
use runs::run::Run;
use runs::sheet::Sheet;
use sources::records::{Record, RecordSource};
use std::process::Abort;
use std::test::Fail;
use terms::determinant::Determinant;

const RESOURCE: [(Determinant, i64); 9] = [
    (Determinant::Vssvariol, 120_000),
    (Determinant::Urllag, 100_000),
    (Determinant::Urllead, -100_000),
    (Determinant::Rtvar, 28_000),
    (Determinant::Hsl, 400_000),
    (Determinant::Lsl, 100_000),
    (Determinant::Rthslaiec, 3_000),
    (Determinant::Rtvssaiec, 2_800),
    (Determinant::Rtmg, 80_000),
];

// All numbers stand for every interval, but the price in interval `fault` is out of range where that is not 0.
#[derive(Clone, Copy)]
pub struct Meters {
    pub owner: u32,
    pub price: i64,
    pub market: i64,
    pub shares: [(u32, i64); 2],
    pub fault: u32,
}

// The owner is paid 300 and 1,000 in each interval, and the load charged 650 twice.
pub const FIRST: Meters = Meters {
    owner: 0,
    price: 100,
    market: 3_600,
    shares: [(0, 500_000), (63, 500_000)],
    fault: 0,
};

// 96 times that.
pub const FIRST_TOTALS: [Row; 2] = [(0, [-28_800, -96_000, 62_400]), (63, [0, 0, 62_400])];

// 330, 1,000, and 665 twice.
pub const DEARER: Meters = Meters {
    price: 110,
    ..FIRST
};

pub const DEARER_TOTALS: [Row; 2] = [(0, [-31_680, -96_000, 63_840]), (63, [0, 0, 63_840])];

// The latter less the former.
pub const DEARER_BILLS: [Row; 2] = [(0, [-2_880, 0, 1_440]), (63, [0, 0, 1_440])];

// 330 and 3,000 for another owner, and 3,330 for the whole load.
pub const MOVED: Meters = Meters {
    owner: 5,
    price: 110,
    market: 3_700,
    shares: [(62, 0), (63, 1_000_000)],
    fault: 0,
};

pub const MOVED_TOTALS: [Row; 2] = [(5, [-31_680, -288_000, 0]), (63, [0, 0, 319_680])];

impl Meters {
    pub fn records(&self, day: u32) -> [Record; 15] {
        let all_day = |d: Determinant, unit: u32, number: i64| {
            record([u32::from(d), unit, day, 0], number)
        };
        let price = all_day(Determinant::Vssvarpr, 0, self.price);
        let mut records = [price; 15];
        for (row, (determinant, number)) in records.iter_mut().zip(&RESOURCE) {
            *row = all_day(*determinant, 0, *number);
        }
        let [(first, one), (second, other)] = self.shares;
        records[9] = all_day(Determinant::Owner, 0, i64::from(self.owner));
        records[10] = all_day(Determinant::Rtspp, 0, self.market);
        records[11] = all_day(Determinant::Lrs, first, one);
        records[12] = all_day(Determinant::Lrs, second, other);
        if self.fault != 0 {
            records[14] = record([Determinant::Vssvarpr.into(), 0, day, self.fault], -1);
        }
        records
    }

    // A sheet of the first intervals of a day.
    pub fn sheet(&self, day: u32, intervals: u32) -> Result<Sheet, Fail> {
        let records = self.records(day);
        let source = RecordSource::new(&records);
        let mut run = Run::open(RunDay::try_from(day)?, HalfAway);
        for interval in 1..=intervals {
            let _ = run.interval(&source, interval, &mut [BLANK; 256]);
        }
        Ok(run.close())
    }
}

// An entity and its three amounts.
pub type Row = (u32, [i64; 3]);

// A row that no posting writes.
pub const JUNK: Amounts = Amounts {
    reactive: 7,
    held: -77,
    load: 777,
};

// An entity's amounts in a list of rows; zero where it has no row.
fn amounts_in(rows: &[Row], entity: u32) -> Amounts {
    let found = rows.iter().find(|(q, _)| *q == entity);
    let [reactive, held, load] = found.map_or([0; 3], |(_, numbers)| *numbers);
    Amounts {
        reactive,
        held,
        load,
    }
}

// The first 64 rows are these, and those behind them as they were.
pub fn check_bills(rt: &impl Abort, bills: &[Amounts], rows: &[Row]) {
    for (i, bill) in bills.iter().enumerate() {
        let entity = u32::try_from(i).unwrap_or(u32::MAX);
        let wanted = if i < 64 {
            amounts_in(rows, entity)
        } else {
            JUNK
        };
        assert_eq!(rt; *bill, wanted, "bill {i}");
    }
}

// No row was written.
pub fn check_unbilled(rt: &impl Abort, bills: &[Amounts]) {
    for (i, bill) in bills.iter().enumerate() {
        assert_eq!(rt; *bill, JUNK, "bill {i}");
    }
}

// A day's marks, reserved and billed, and the amounts of all entities.
pub fn check_day<B: Book>(rt: &impl Abort, book: &B, day: u32, marks: (bool, bool), rows: &[Row]) {
    let (reserved, billed) = marks;
    for entity in 0..64 {
        let wanted = Account {
            reserved,
            billed,
            amounts: amounts_in(rows, entity),
        };
        assert_eq!(rt;
            book.read(day, entity),
            Ok(wanted),
            "day {day}, entity {entity}"
        );
    }
}

// Reserves a day for nothing: the slip is withdrawn.
pub fn touch<B: Book>(book: &mut B, day: u32) -> Result<(), BookRefusal> {
    match reserve(book, day) {
        Ok(slip) => withdraw(book, slip),
        Err(refusal) => Err(refusal),
    }
}

// Posts a sheet under a new slip.
pub fn bill<B: Book>(
    book: &mut B,
    sheet: &Sheet,
    bills: &mut [Amounts],
) -> Result<Result<u32, PostRefusal>, Fail> {
    let slip = reserve(book, sheet.day())?;
    Ok(post(book, slip, sheet, bills))
}

// What is tried on every kind of book.
pub trait Trial {
    fn try_on<A: Abort, B: Book>(&self, rt: &A, book: &mut B) -> Result<(), Fail>;
}

// Tries a new book in a list of records, and one in an image of bytes.
pub fn try_both<R: Abort + AllocGlobal, T: Trial>(
    rt: &R,
    places: usize,
    trial: &T,
) -> Result<(), Fail> {
    let records = vec![in rt.alloc(); Place::blank(0); places]?;
    let mut book = Shelf::<Records>::open(records);
    let told = trial.try_on(rt, &mut book);
    assert_eq!(rt; book.close().len(), places);
    told?;
    let size = places.wrapping_mul(1544);
    let bytes = vec![in rt.alloc(); 0_u8; size]?;
    let Opened { mut book, fault } = Opened::new(bytes);
    assert_eq!(rt; fault, None);
    let told = trial.try_on(rt, &mut book);
    assert_eq!(rt; close(book).len(), size);
    told
}
