// Calls that are accepted one after the other, with the days that are held after each, or what is read.
use super::calls::{Call, MOST, NONE, answer, day, given, row};
use super::layouts::Held;
use books::account::Account;
use books::book::Book;
use books::place::Place;
use std::process::Abort;

// A call that is accepted, and the days that are held after it.
pub type Moved = (Call, &'static [u16]);

pub const UPWARDS: [Moved; 8] = [
    (Call::Reserve(0), &[0]),
    (Call::Reserve(1), &[0, 1]),
    (Call::Reserve(65_534), &[0, 1, 65_534]),
    (Call::Reserve(65_535), &[0, 1, 65_534, 65_535]),
    (Call::AsUnbilled(0), &[1, 65_534, 65_535]),
    (Call::AsUnbilled(1), &[65_534, 65_535]),
    (Call::AsUnbilled(65_534), &[65_535]),
    (Call::AsUnbilled(65_535), &[]),
];

pub const DOWNWARDS: [Moved; 8] = [
    (Call::Reserve(65_535), &[65_535]),
    (Call::Reserve(65_534), &[65_534, 65_535]),
    (Call::Reserve(1), &[1, 65_534, 65_535]),
    (Call::Reserve(0), &[0, 1, 65_534, 65_535]),
    (Call::AsUnbilled(65_535), &[0, 1, 65_534]),
    (Call::AsUnbilled(65_534), &[0, 1]),
    (Call::AsUnbilled(1), &[0]),
    (Call::AsUnbilled(0), &[]),
];

pub const MIXED: [Moved; 16] = [
    (Call::Reserve(300), &[300]),
    (Call::Reserve(500), &[300, 500]),
    (Call::Reserve(400), &[300, 400, 500]),
    (Call::Reserve(100), &[100, 300, 400, 500]),
    (Call::Reserve(200), &[100, 200, 300, 400, 500]),
    (Call::AsUnbilled(300), &[100, 200, 400, 500]),
    (Call::AsUnbilled(100), &[200, 400, 500]),
    (Call::Reserve(600), &[200, 400, 500, 600]),
    (Call::AsUnbilled(600), &[200, 400, 500]),
    (Call::Reserve(300), &[200, 300, 400, 500]),
    (Call::Reserve(0), &[0, 200, 300, 400, 500]),
    (Call::AsUnbilled(400), &[0, 200, 300, 500]),
    (Call::AsUnbilled(500), &[0, 200, 300]),
    (Call::AsUnbilled(0), &[200, 300]),
    (Call::AsUnbilled(200), &[300]),
    (Call::AsUnbilled(300), &[]),
];

// What is kept of a day that was reserved so: amounts of its own.
pub fn moved(held: u16) -> Place {
    given(day(held, true, false), 9, [i64::from(held), 0, -9])
}

// A day that is reserved is given amounts of its own.
pub fn move_on<B: Book>(rt: &impl Abort, book: &mut B, call: Call) {
    assert_eq!(rt; answer(book, call), 0);
    if let Call::Reserve(day) = call {
        let own = Call::Replace(day, 9, [i64::from(day), 0, -9]);
        assert_eq!(rt; answer(book, own), 0);
    }
}

// A day and an entity, and what is read: whether it is reserved, whether it is billed, and the amounts.
pub type Reading = (u32, u32, bool, bool, [i64; 3]);

// A call that is accepted, and what is read after it.
pub type Stage = (Call, &'static [Reading]);

pub const FIRST: [i64; 3] = [-5, 6, -7];

pub const EDGES: [i64; 3] = [MOST, -1_000_000_000_000_000, MOST];

pub const OTHER: [i64; 3] = [1, 2, 3];

pub const LATER: [i64; 3] = [50, 0, 70];

pub const LAST: [i64; 3] = [8, 80, 800];

pub const STAGES: [Stage; 16] = [
    (
        Call::Reserve(7),
        &[
            (7, 0, true, false, NONE),
            (7, 63, true, false, NONE),
            (6, 0, false, false, NONE),
            (8, 0, false, false, NONE),
            (0, 0, false, false, NONE),
            (65_535, 63, false, false, NONE),
        ],
    ),
    (
        Call::Replace(7, 3, FIRST),
        &[
            (7, 3, true, false, FIRST),
            (7, 2, true, false, NONE),
            (7, 4, true, false, NONE),
            (8, 3, false, false, NONE),
        ],
    ),
    (
        Call::Reserve(9),
        &[(9, 3, true, false, NONE), (7, 3, true, false, FIRST)],
    ),
    (
        Call::Replace(9, 3, OTHER),
        &[(9, 3, true, false, OTHER), (7, 3, true, false, FIRST)],
    ),
    (
        Call::Replace(7, 63, EDGES),
        &[
            (7, 63, true, false, EDGES),
            (7, 3, true, false, FIRST),
            (7, 0, true, false, NONE),
            (9, 63, true, false, NONE),
        ],
    ),
    (
        Call::Replace(7, 3, LATER),
        &[
            (7, 3, true, false, LATER),
            (7, 63, true, false, EDGES),
            (9, 3, true, false, OTHER),
        ],
    ),
    (
        Call::AsBilled(7),
        &[
            (7, 3, false, true, LATER),
            (7, 63, false, true, EDGES),
            (7, 0, false, true, NONE),
            (9, 3, true, false, OTHER),
        ],
    ),
    (
        Call::Reserve(7),
        &[
            (7, 3, true, true, LATER),
            (7, 63, true, true, EDGES),
            (7, 0, true, true, NONE),
            (9, 3, true, false, OTHER),
        ],
    ),
    (
        Call::Replace(7, 3, LAST),
        &[(7, 3, true, true, LAST), (7, 63, true, true, EDGES)],
    ),
    (
        Call::AsUnbilled(7),
        &[
            (7, 3, false, true, LAST),
            (7, 63, false, true, EDGES),
            (7, 0, false, true, NONE),
            (9, 3, true, false, OTHER),
        ],
    ),
    (
        Call::AsUnbilled(9),
        &[
            (9, 3, false, false, NONE),
            (7, 3, false, true, LAST),
            (7, 63, false, true, EDGES),
        ],
    ),
    (
        Call::Reserve(9),
        &[(9, 3, true, false, NONE), (7, 3, false, true, LAST)],
    ),
    (
        Call::AsUnbilled(9),
        &[(9, 3, false, false, NONE), (7, 3, false, true, LAST)],
    ),
    (
        Call::Reserve(7),
        &[(7, 3, true, true, LAST), (7, 63, true, true, EDGES)],
    ),
    (Call::Replace(7, 63, NONE), &[(7, 63, true, true, NONE)]),
    (
        Call::AsBilled(7),
        &[(7, 3, false, true, LAST), (7, 63, false, true, NONE)],
    ),
];

// What is held after each of the stages.
pub const KEPT: [&[Held]; 16] = [
    &[(7, true, false, &[])],
    &[(7, true, false, &[(3, FIRST)])],
    &[(7, true, false, &[(3, FIRST)]), (9, true, false, &[])],
    &[
        (7, true, false, &[(3, FIRST)]),
        (9, true, false, &[(3, OTHER)]),
    ],
    &[
        (7, true, false, &[(3, FIRST), (63, EDGES)]),
        (9, true, false, &[(3, OTHER)]),
    ],
    &[
        (7, true, false, &[(3, LATER), (63, EDGES)]),
        (9, true, false, &[(3, OTHER)]),
    ],
    &[
        (7, false, true, &[(3, LATER), (63, EDGES)]),
        (9, true, false, &[(3, OTHER)]),
    ],
    &[
        (7, true, true, &[(3, LATER), (63, EDGES)]),
        (9, true, false, &[(3, OTHER)]),
    ],
    &[
        (7, true, true, &[(3, LAST), (63, EDGES)]),
        (9, true, false, &[(3, OTHER)]),
    ],
    &[
        (7, false, true, &[(3, LAST), (63, EDGES)]),
        (9, true, false, &[(3, OTHER)]),
    ],
    &[(7, false, true, &[(3, LAST), (63, EDGES)])],
    &[
        (7, false, true, &[(3, LAST), (63, EDGES)]),
        (9, true, false, &[]),
    ],
    &[(7, false, true, &[(3, LAST), (63, EDGES)])],
    &[(7, true, true, &[(3, LAST), (63, EDGES)])],
    &[(7, true, true, &[(3, LAST)])],
    &[(7, false, true, &[(3, LAST)])],
];

pub fn check_reading<B: Book>(rt: &impl Abort, book: &B, reading: Reading) {
    let (day, entity, reserved, billed, numbers) = reading;
    let wanted = Account {
        reserved,
        billed,
        amounts: row(numbers),
    };
    assert_eq!(rt;
        book.read(day, entity),
        Ok(wanted),
        "day {day}, entity {entity}"
    );
}

pub fn check_readings<B: Book>(rt: &impl Abort, book: &B, readings: &[Reading]) {
    for reading in readings {
        check_reading(rt, book, *reading);
    }
}

// The first stages, with what is read after each.
pub fn check_stages<B: Book>(rt: &impl Abort, book: &mut B, count: usize) {
    for (i, (call, readings)) in STAGES.iter().take(count).enumerate() {
        assert_eq!(rt; answer(book, *call), 0, "stage {i}");
        check_readings(rt, book, readings);
    }
}
