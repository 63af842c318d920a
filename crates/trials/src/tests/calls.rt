// The calls of a book, what calls are tried on every kind of book, and the days that they leave.
use amounts::row::Amounts;
use books::book::{Book, Lift};
use books::place::Place;
use books::refusal::BookRefusal;
use std::process::Abort;

// A call with its day, and an entity and its three amounts.
#[derive(Clone, Copy)]
pub enum Call {
    Reserve(u32),
    Read(u32, u32),
    Replace(u32, u32, [i64; 3]),
    AsBilled(u32),
    AsUnbilled(u32),
}

// A call, and the number of the answer, 0 where it is accepted.
pub type Step = (Call, u32);

pub const NONE: [i64; 3] = [0, 0, 0];

// The most that an amount may be, and one more.
pub const MOST: i64 = 1_000_000_000_000_000;

pub const PAST: i64 = 1_000_000_000_000_001;

pub fn row(numbers: [i64; 3]) -> Amounts {
    let [reactive, held, load] = numbers;
    Amounts {
        reactive,
        held,
        load,
    }
}

// A day with its marks and no amounts.
pub fn day(day: u16, reserved: bool, billed: bool) -> Place {
    Place {
        day,
        reserved,
        billed,
        amounts: [row(NONE); 64],
    }
}

// The same with an entity's amounts.
pub fn given(mut place: Place, entity: usize, numbers: [i64; 3]) -> Place {
    if entity < 64 {
        place.amounts[entity] = row(numbers);
    }
    place
}

pub fn free() -> Place {
    day(0, false, false)
}

fn number(told: Result<(), BookRefusal>) -> u32 {
    told.err().map_or(0, |refusal| refusal.number())
}

pub fn answer<B: Book>(book: &mut B, call: Call) -> u32 {
    match call {
        Call::Reserve(day) => number(book.reserve(day)),
        Call::Read(day, entity) => number(book.read(day, entity).map(|_| ())),
        Call::Replace(day, entity, numbers) => number(book.replace(day, entity, row(numbers))),
        Call::AsBilled(day) => number(book.lift(day, Lift::AsBilled)),
        Call::AsUnbilled(day) => number(book.lift(day, Lift::AsUnbilled)),
    }
}

pub fn check_steps<B: Book>(rt: &impl Abort, book: &mut B, steps: &[Step]) {
    for (i, (call, told)) in steps.iter().enumerate() {
        assert_eq!(rt; answer(book, *call), *told, "step {i}");
    }
}

// Day 10 is billed and not reserved, day 20 reserved and not billed.
pub const BEFORE: [Step; 5] = [
    (Call::Reserve(20), 0),
    (Call::Reserve(10), 0),
    (Call::Replace(10, 63, [1, 2, 3]), 0),
    (Call::AsBilled(10), 0),
    (Call::Replace(20, 0, [4, 5, 6]), 0),
];

// What is held after them.
pub fn held_before() -> [Place; 2] {
    [
        given(day(10, false, true), 63, [1, 2, 3]),
        given(day(20, true, false), 0, [4, 5, 6]),
    ]
}

// Whether or not a place is free. Day 65,546 is day 10 in two bytes, and day 65,556 day 20.
pub const CALLS: [Step; 45] = [
    (Call::Reserve(10), 0),
    (Call::Reserve(20), 9),
    (Call::Reserve(65_536), 8),
    (Call::Reserve(65_546), 8),
    (Call::Reserve(65_556), 8),
    (Call::Reserve(4_294_967_295), 8),
    (Call::Read(0, 0), 0),
    (Call::Read(10, 63), 0),
    (Call::Read(20, 63), 0),
    (Call::Read(65_535, 63), 0),
    (Call::Read(65_535, 64), 8),
    (Call::Read(65_536, 63), 8),
    (Call::Read(65_536, 64), 8),
    (Call::Read(65_556, 0), 8),
    (Call::Read(20, 64), 8),
    (Call::Read(20, 256), 8),
    (Call::Read(20, 4_294_967_295), 8),
    (Call::Replace(20, 0, NONE), 0),
    (Call::Replace(20, 63, NONE), 0),
    (Call::Replace(20, 64, NONE), 8),
    (Call::Replace(20, 256, NONE), 8),
    (Call::Replace(20, 4_294_967_295, NONE), 8),
    (Call::Replace(65_556, 0, NONE), 8),
    (Call::Replace(65_536, 63, NONE), 8),
    (Call::Replace(65_536, 64, NONE), 8),
    (Call::Replace(65_536, 64, [PAST, 0, 0]), 8),
    (Call::Replace(10, 63, NONE), 17),
    (Call::Replace(10, 64, NONE), 8),
    (Call::Replace(0, 63, NONE), 17),
    (Call::Replace(0, 64, NONE), 8),
    (Call::Replace(65_535, 63, NONE), 17),
    (Call::Replace(65_535, 64, NONE), 8),
    (Call::AsBilled(20), 0),
    (Call::AsBilled(10), 17),
    (Call::AsBilled(0), 17),
    (Call::AsBilled(65_535), 17),
    (Call::AsBilled(65_536), 8),
    (Call::AsBilled(65_556), 8),
    (Call::AsUnbilled(20), 0),
    (Call::AsUnbilled(10), 17),
    (Call::AsUnbilled(0), 17),
    (Call::AsUnbilled(65_535), 17),
    (Call::AsUnbilled(65_536), 8),
    (Call::AsUnbilled(65_556), 8),
    (Call::AsUnbilled(4_294_967_295), 8),
];

// A day that is not held, with every place taken and with one free.
pub const FULL: [Step; 3] = [
    (Call::Reserve(0), 10),
    (Call::Reserve(15), 10),
    (Call::Reserve(65_535), 10),
];

pub const ROOM: [Step; 3] = [
    (Call::Reserve(0), 0),
    (Call::Reserve(15), 0),
    (Call::Reserve(65_535), 0),
];

// An amount, and the answer on day 20, which is reserved, and on days 10 and 0, which are not.
pub const AMOUNTS: [(i64, u32, u32); 9] = [
    (0, 0, 17),
    (1, 0, 17),
    (-1, 0, 17),
    (MOST, 0, 17),
    (-1_000_000_000_000_000, 0, 17),
    (PAST, 8, 8),
    (-1_000_000_000_000_001, 8, 8),
    (i64::MAX, 8, 8),
    (i64::MIN, 8, 8),
];

// The days are reserved downwards, so that each moves all before it, and billed.
pub fn fill<B: Book>(rt: &impl Abort, book: &mut B, places: u32) {
    for taken in 0..places {
        let next = 31_u32.wrapping_sub(taken);
        assert_eq!(rt; answer(book, Call::Reserve(next)), 0, "day {next}");
    }
    assert_eq!(rt; answer(book, Call::Reserve(100)), 10);
    for taken in 0..places {
        let next = 31_u32.wrapping_sub(taken);
        check_steps(
            rt,
            book,
            &[
                (Call::Replace(next, 63, [i64::from(next), -1, 1]), 0),
                (Call::AsBilled(next), 0),
                (Call::Reserve(100), 10),
            ],
        );
    }
    check_steps(
        rt,
        book,
        &[
            (Call::Replace(100, 0, NONE), 17),
            (Call::AsUnbilled(100), 17),
        ],
    );
}

// What is kept of a day that was taken so.
pub fn filled(next: u16) -> Place {
    given(day(next, false, true), 63, [i64::from(next), -1, 1])
}
