// A book that is opened on the image of another: it keeps the same, and opening and closing change no byte.
use super::calls::{Call, MOST, NONE, answer, check_steps, filled};
use super::layouts::{Held, all_placed, lay};
use super::stages::*;
use books::account::Account;
use books::book::Book;
use books::place::Place;
use books::shelf::Shelf;
use imagebook::bytes::Image;
use imagebook::opening::{Opened, close};
use std::process::Abort;
use std::test::Fail;

// What is read of a held day and an entity; past the last, nothing is asked.
pub fn check_account(rt: &impl Abort, book: &Shelf<Image>, place: &Place, entity: usize) {
    for (number, amounts) in (0..64).zip(place.amounts.iter()).skip(entity).take(1) {
        let wanted = Account {
            reserved: place.reserved,
            billed: place.billed,
            amounts: *amounts,
        };
        let told = book.read(u32::from(place.day), number);
        assert_eq!(rt; told, Ok(wanted), "entity {number}");
    }
}

// The held days are these, and no others.
pub fn check_held(rt: &impl Abort, book: &Shelf<Image>, held: &[Place]) {
    for (i, place) in held.iter().enumerate() {
        assert_eq!(rt; book.held(i), Some(*place), "held day {i}");
    }
    assert_eq!(rt; book.held(held.len()), None);
}

// The same, and what is read of every entity.
fn check_days(rt: &impl Abort, book: &Shelf<Image>, held: &[Place]) {
    check_held(rt, book, held);
    for place in held {
        for entity in 0..64 {
            check_account(rt, book, place, entity);
        }
    }
}

// The answers to calls on a held day that change nothing.
fn check_marks(rt: &impl Abort, book: &mut Shelf<Image>, place: &Place) {
    let day = u32::from(place.day);
    if place.reserved {
        check_steps(rt, book, &[(Call::Reserve(day), 9)]);
    } else {
        check_steps(
            rt,
            book,
            &[
                (Call::Replace(day, 0, NONE), 17),
                (Call::AsBilled(day), 17),
                (Call::AsUnbilled(day), 17),
            ],
        );
    }
}

// The image of these days is opened and closed: the book keeps them, and the bytes stay.
fn check_kept<R: Abort + AllocGlobal>(rt: &R, places: usize, held: &[Place]) -> Result<(), Fail> {
    let bytes = lay(rt.alloc(), places, held)?;
    let before = bytes.as_slice().to_vec(rt.alloc())?;
    let Opened { mut book, fault } = Opened::new(bytes);
    assert_eq!(rt; fault, None);
    assert_eq!(rt; book.places(), places);
    check_days(rt, &book, held);
    for place in held {
        check_marks(rt, &mut book, place);
    }
    check_days(rt, &book, held);
    let closed = close(book);
    assert_eq!(rt; closed.as_slice(), before.as_slice());
    Ok(())
}

const LEAST: i64 = -1_000_000_000_000_000;

// Places, and the days that are held.
const IMAGES: [(usize, &[Held]); 14] = [
    (0, &[]),
    (1, &[]),
    (31, &[]),
    (32, &[]),
    (1, &[(0, true, false, &[])]),
    (1, &[(0, false, true, &[(0, [1, 2, 3])])]),
    (1, &[(65_535, true, true, &[(63, [-1, -2, -3])])]),
    (2, &[(65_535, true, true, &[(63, [MOST, LEAST, MOST])])]),
    (2, &[(0, true, false, &[]), (1, false, true, &[])]),
    (2, &[(0, true, false, &[]), (65_535, true, true, &[])]),
    (3, &[(255, true, false, &[]), (256, false, true, &[])]),
    (
        3,
        &[
            (1, true, false, &[(0, [LEAST, 0, 0]), (31, [0, MOST, 0])]),
            (255, true, true, &[(31, [0, LEAST, 0]), (63, [0, 0, MOST])]),
            (256, false, true, &[(0, [MOST, 0, 0]), (63, [0, 0, LEAST])]),
        ],
    ),
    (
        32,
        &[
            (10, false, true, &[(63, [1, 2, 3])]),
            (20, true, false, &[(0, [4, 5, 6])]),
        ],
    ),
    (5, &[(513, true, true, &[(0, [-1, MOST, LEAST])])]),
];

#[test]
fn opened_and_closed(rt: HostRuntime) -> Result<(), Fail> {
    for (places, held) in &IMAGES {
        let days = all_placed(rt.alloc(), held)?;
        check_kept(&rt, *places, days.as_slice())?;
    }
    Ok(())
}

// As many days as there are places.
#[test]
fn full_images(rt: HostRuntime) -> Result<(), Fail> {
    for places in [1, 31, 32] {
        let mut days = Vec::new(rt.alloc());
        for next in 0..places {
            days.push(filled(next))?;
        }
        check_kept(&rt, usize::from(places), days.as_slice())?;
    }
    Ok(())
}

// The image after a call on the book that it says.
fn called(rt: &impl Abort, bytes: Vec<u8>, call: Call) -> Vec<u8> {
    let Opened { mut book, fault } = Opened::new(bytes);
    assert_eq!(rt; fault, None);
    move_on(rt, &mut book, call);
    close(book)
}

// The book is closed and opened again after each call.
fn check_moved<R: Abort + AllocGlobal>(rt: &R, moves: &[Moved]) -> Result<(), Fail> {
    let mut bytes = lay(rt.alloc(), 5, &[])?;
    for (call, days) in moves {
        let mut held = Vec::new(rt.alloc());
        for day in days.iter() {
            held.push(moved(*day))?;
        }
        bytes = called(rt, bytes, *call);
        let wanted = lay(rt.alloc(), 5, held.as_slice())?;
        assert_eq!(rt; bytes.as_slice(), wanted.as_slice());
    }
    Ok(())
}

#[test]
fn reopened_moves(rt: HostRuntime) -> Result<(), Fail> {
    check_moved(&rt, &UPWARDS)?;
    check_moved(&rt, &DOWNWARDS)?;
    check_moved(&rt, &MIXED)
}

// What was read before the book was closed is read after it was opened again.
fn staged(rt: &impl Abort, bytes: Vec<u8>, stage: &Stage) -> Vec<u8> {
    let (call, readings) = stage;
    let Opened { mut book, fault } = Opened::new(bytes);
    assert_eq!(rt; fault, None);
    assert_eq!(rt; answer(&mut book, *call), 0);
    check_readings(rt, &book, readings);
    let Opened { book, fault } = Opened::new(close(book));
    assert_eq!(rt; fault, None);
    check_readings(rt, &book, readings);
    close(book)
}

#[test]
fn reopened_stages(rt: HostRuntime) -> Result<(), Fail> {
    let mut bytes = lay(rt.alloc(), 3, &[])?;
    for (stage, held) in STAGES.iter().zip(KEPT.iter()) {
        let days = all_placed(rt.alloc(), held)?;
        bytes = staged(&rt, bytes, stage);
        let wanted = lay(rt.alloc(), 3, days.as_slice())?;
        assert_eq!(rt; bytes.as_slice(), wanted.as_slice());
    }
    Ok(())
}
