// A book in a list of records, called as every book is called.
use super::calls::*;
use super::stages::*;
use books::place::Place;
use books::records::Records;
use books::refusal::BookRefusal;
use books::shelf::Shelf;
use std::alloc::Global;
use std::process::Abort;
use std::test::Fail;

// What each record is before a book is opened in the list.
fn old() -> Place {
    given(day(7, true, true), 5, [-7, 70, 700])
}

pub fn open(heap: Global, records: usize) -> Result<Shelf<Records>, Fail> {
    let list = vec![in heap; old(); records]?;
    Ok(Shelf::<Records>::open(list))
}

// The held days stand in front, free places behind them, and past 32 places what stood there before.
fn check_records(rt: &impl Abort, records: &[Place], held: &[Place]) {
    for (i, record) in records.iter().enumerate() {
        let behind = if i < 32 { free() } else { old() };
        let wanted = held.get(i).copied().unwrap_or(behind);
        assert_eq!(rt; *record, wanted, "record {i}");
    }
}

// A call after those; where it is refused, all is as it was.
fn check_call<R: Abort + AllocGlobal>(
    rt: &R,
    places: usize,
    call: Call,
    told: u32,
) -> Result<(), Fail> {
    let mut book = open(rt.alloc(), places)?;
    check_steps(rt, &mut book, &BEFORE);
    let answered = answer(&mut book, call);
    let records = book.close();
    assert_eq!(rt; answered, told);
    assert_eq!(rt; records.len(), places);
    if told != 0 {
        check_records(rt, records.as_slice(), &held_before());
    }
    Ok(())
}

fn check_calls<R: Abort + AllocGlobal>(rt: &R, places: usize, steps: &[Step]) -> Result<(), Fail> {
    for (call, told) in steps {
        check_call(rt, places, *call, *told)?;
    }
    Ok(())
}

#[test]
fn book_refusals(rt: HostRuntime) -> Result<(), Fail> {
    check_calls(&rt, 2, &CALLS)?;
    check_calls(&rt, 2, &FULL)?;
    check_calls(&rt, 3, &CALLS)?;
    check_calls(&rt, 3, &ROOM)
}

#[test]
fn book_amounts(rt: HostRuntime) -> Result<(), Fail> {
    for (n, reserved, other) in &AMOUNTS {
        for numbers in [[*n, 0, 0], [0, *n, 0], [0, 0, *n], [*n, MOST, *n]] {
            check_call(&rt, 2, Call::Replace(20, 63, numbers), *reserved)?;
            check_call(&rt, 2, Call::Replace(10, 63, numbers), *other)?;
            check_call(&rt, 2, Call::Replace(0, 63, numbers), *other)?;
            check_call(&rt, 2, Call::Replace(20, 64, numbers), 8)?;
            check_call(&rt, 2, Call::Replace(65_556, 63, numbers), 8)?;
        }
    }
    Ok(())
}

const REFUSALS: [(BookRefusal, u32); 4] = [
    (BookRefusal::OutOfRange, 8),
    (BookRefusal::Reserved, 9),
    (BookRefusal::Full, 10),
    (BookRefusal::NotReserved, 17),
];

#[test]
fn book_answers(rt: HostRuntime) {
    for (refusal, told) in &REFUSALS {
        assert_eq!(rt; refusal.number(), *told);
    }
}

// The records of a list, and the places of a book that is opened in it.
const OPENINGS: [(usize, u32); 6] = [(0, 0), (1, 1), (2, 2), (31, 31), (32, 32), (33, 32)];

// The places are cleared when the book is opened, and then hold the days up to 31, in their order.
fn check_opening<R: Abort + AllocGlobal>(rt: &R, records: usize, places: u32) -> Result<(), Fail> {
    let opened = open(rt.alloc(), records)?.close();
    assert_eq!(rt; opened.len(), records);
    check_records(rt, opened.as_slice(), &[]);
    let mut book = open(rt.alloc(), records)?;
    fill(rt, &mut book, places);
    let closed = book.close();
    assert_eq!(rt; closed.len(), records);
    for (i, record) in closed.as_slice().iter().enumerate() {
        let first = 32_u32.wrapping_sub(places);
        let next = first.wrapping_add(u32::try_from(i)?);
        let billed = filled(u16::try_from(next)?);
        let wanted = if i < 32 { billed } else { old() };
        assert_eq!(rt; *record, wanted, "record {i} of {records}");
    }
    Ok(())
}

#[test]
fn book_places(rt: HostRuntime) -> Result<(), Fail> {
    for (records, places) in &OPENINGS {
        check_opening(&rt, *records, *places)?;
    }
    Ok(())
}

// The records after the first calls, as the last of them tells.
fn check_first<R: Abort + AllocGlobal>(
    rt: &R,
    moves: &[Moved],
    count: usize,
    days: &[u16],
) -> Result<(), Fail> {
    let mut book = open(rt.alloc(), 5)?;
    for (call, _) in moves.iter().take(count) {
        move_on(rt, &mut book, *call);
    }
    let records = book.close();
    assert_eq!(rt; records.len(), 5);
    for (i, record) in records.as_slice().iter().enumerate() {
        let wanted = match days.get(i).copied() {
            Some(held) => moved(held),
            None => free(),
        };
        assert_eq!(rt; *record, wanted, "record {i} after {count}");
    }
    Ok(())
}

fn check_moves<R: Abort + AllocGlobal>(rt: &R, moves: &[Moved]) -> Result<(), Fail> {
    for (i, (_, days)) in moves.iter().enumerate() {
        check_first(rt, moves, i.wrapping_add(1), days)?;
    }
    Ok(())
}

#[test]
fn book_order(rt: HostRuntime) -> Result<(), Fail> {
    check_moves(&rt, &UPWARDS)?;
    check_moves(&rt, &DOWNWARDS)?;
    check_moves(&rt, &MIXED)
}

#[test]
fn book_accounts(rt: HostRuntime) -> Result<(), Fail> {
    let mut book = open(rt.alloc(), 33)?;
    check_stages(&rt, &mut book, STAGES.len());
    let records = book.close();
    assert_eq!(rt; records.len(), 33);
    check_records(
        &rt,
        records.as_slice(),
        &[given(day(7, false, true), 3, LAST)],
    );
    Ok(())
}
