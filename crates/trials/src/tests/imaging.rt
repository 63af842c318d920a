// A book in an image of bytes, called beside one in a list: both tell the same, and the bytes are those of what is held.
use super::calls::*;
use super::keeping::open;
use super::layouts::{Held, all_placed, lay};
use super::stages::*;
use books::book::Book;
use books::place::Place;
use books::records::Records;
use books::shelf::Shelf;
use imagebook::bytes::Image;
use imagebook::opening::{Opened, close};
use std::process::Abort;
use std::test::Fail;

// A book in a list and one in an image, of as many places.
struct Pair {
    list: Shelf<Records>,
    image: Shelf<Image>,
}

// What is stored when both are closed.
#[derive(Drop)]
struct Stored {
    records: Vec<Place>,
    bytes: Vec<u8>,
}

const DAYS: [u32; 20] = [
    0, 1, 6, 7, 8, 9, 10, 15, 20, 31, 100, 200, 300, 400, 500, 600, 65_534, 65_535, 65_536, 65_556,
];

const ENTITIES: [u32; 7] = [0, 3, 5, 9, 63, 64, 4_294_967_295];

// All that is asked of both is answered alike.
fn check_alike<A: Book, B: Book>(rt: &impl Abort, one: &A, other: &B) {
    for day in &DAYS {
        for entity in &ENTITIES {
            let told = one.read(*day, *entity);
            assert_eq!(rt;
                other.read(*day, *entity),
                told,
                "day {day}, entity {entity}"
            );
        }
    }
}

impl Pair {
    // New books: the image is all zeros.
    fn new<R: Abort + AllocGlobal>(rt: &R, places: usize) -> Result<Pair, Fail> {
        let zeros = lay(rt.alloc(), places, &[])?;
        let list = open(rt.alloc(), places)?;
        let Opened { book: image, fault } = Opened::new(zeros);
        assert_eq!(rt; fault, None);
        Ok(Pair { list, image })
    }

    fn check_steps(&mut self, rt: &impl Abort, steps: &[Step]) {
        for step in steps {
            check_steps(rt, &mut self.list, &[*step]);
            check_steps(rt, &mut self.image, &[*step]);
            check_alike(rt, &self.list, &self.image);
        }
    }

    fn move_on(&mut self, rt: &impl Abort, call: Call) {
        move_on(rt, &mut self.list, call);
        move_on(rt, &mut self.image, call);
        check_alike(rt, &self.list, &self.image);
    }

    fn fill(&mut self, rt: &impl Abort, places: u32) {
        fill(rt, &mut self.list, places);
        fill(rt, &mut self.image, places);
        check_alike(rt, &self.list, &self.image);
    }

    // The first stages, with what is read after each.
    fn check_stages(&mut self, rt: &impl Abort, count: usize) {
        check_stages(rt, &mut self.list, count);
        check_stages(rt, &mut self.image, count);
        check_alike(rt, &self.list, &self.image);
    }

    fn close(self) -> Stored {
        let Pair { list, image } = self;
        let records = list.close();
        let bytes = close(image);
        Stored { records, bytes }
    }
}

// The bytes are those of the list's records.
fn check_listed<R: Abort + AllocGlobal>(
    rt: &R,
    stored: &Stored,
    places: usize,
) -> Result<(), Fail> {
    assert_eq!(rt; stored.records.len(), places);
    let listed = lay(rt.alloc(), places, stored.records.as_slice())?;
    assert_eq!(rt; stored.bytes.as_slice(), listed.as_slice());
    Ok(())
}

// They are also those of these held days, and of free places behind them.
fn check_stored<R: Abort + AllocGlobal>(
    rt: &R,
    stored: &Stored,
    places: usize,
    held: &[Place],
) -> Result<(), Fail> {
    check_listed(rt, stored, places)?;
    let wanted = lay(rt.alloc(), places, held)?;
    assert_eq!(rt; stored.bytes.as_slice(), wanted.as_slice());
    Ok(())
}

// A call after the first ones, and what is stored then.
fn after_call<R: Abort + AllocGlobal>(rt: &R, places: usize, step: Step) -> Result<Stored, Fail> {
    let mut pair = Pair::new(rt, places)?;
    pair.check_steps(rt, &BEFORE);
    pair.check_steps(rt, &[step]);
    Ok(pair.close())
}

// Each call after the first ones; where it is refused, all is as it was.
fn check_calls<R: Abort + AllocGlobal>(rt: &R, places: usize, steps: &[Step]) -> Result<(), Fail> {
    for (call, told) in steps {
        let stored = after_call(rt, places, (*call, *told))?;
        if *told == 0 {
            check_listed(rt, &stored, places)?;
        } else {
            check_stored(rt, &stored, places, &held_before())?;
        }
    }
    Ok(())
}

#[test]
fn image_refusals(rt: HostRuntime) -> Result<(), Fail> {
    check_calls(&rt, 2, &CALLS)?;
    check_calls(&rt, 2, &FULL)?;
    check_calls(&rt, 3, &CALLS)?;
    check_calls(&rt, 3, &ROOM)
}

const TEN: Held = (10, false, true, &[(63, [1, 2, 3])]);

const TWENTY: Held = (20, true, false, &[(0, [4, 5, 6])]);

const LEAST: i64 = -1_000_000_000_000_000;

// A call that is accepted where there are so many places, and what is held after it.
const ACCEPTED: [(usize, Call, &[Held]); 16] = [
    (
        2,
        Call::Reserve(10),
        &[(10, true, true, &[(63, [1, 2, 3])]), TWENTY],
    ),
    (2, Call::Read(10, 63), &[TEN, TWENTY]),
    (2, Call::Read(0, 0), &[TEN, TWENTY]),
    (2, Call::Read(65_535, 63), &[TEN, TWENTY]),
    (
        2,
        Call::Replace(20, 0, NONE),
        &[TEN, (20, true, false, &[])],
    ),
    (2, Call::Replace(20, 63, NONE), &[TEN, TWENTY]),
    (
        2,
        Call::Replace(20, 0, [MOST, LEAST, MOST]),
        &[TEN, (20, true, false, &[(0, [MOST, LEAST, MOST])])],
    ),
    (
        2,
        Call::Replace(20, 63, [LEAST, MOST, LEAST]),
        &[
            TEN,
            (
                20,
                true,
                false,
                &[(0, [4, 5, 6]), (63, [LEAST, MOST, LEAST])],
            ),
        ],
    ),
    (
        2,
        Call::Replace(20, 31, [1, -1, 0]),
        &[TEN, (20, true, false, &[(0, [4, 5, 6]), (31, [1, -1, 0])])],
    ),
    (
        2,
        Call::AsBilled(20),
        &[TEN, (20, false, true, &[(0, [4, 5, 6])])],
    ),
    (2, Call::AsUnbilled(20), &[TEN]),
    (3, Call::AsUnbilled(20), &[TEN]),
    (3, Call::Reserve(0), &[(0, true, false, &[]), TEN, TWENTY]),
    (3, Call::Reserve(15), &[TEN, (15, true, false, &[]), TWENTY]),
    (
        3,
        Call::Reserve(65_535),
        &[TEN, TWENTY, (65_535, true, false, &[])],
    ),
    (4, Call::Reserve(15), &[TEN, (15, true, false, &[]), TWENTY]),
];

#[test]
fn image_accepted(rt: HostRuntime) -> Result<(), Fail> {
    for (places, call, held) in &ACCEPTED {
        let wanted = all_placed(rt.alloc(), held)?;
        let stored = after_call(&rt, *places, (*call, 0))?;
        check_stored(&rt, &stored, *places, wanted.as_slice())?;
    }
    Ok(())
}

// An entity's amounts on day 20, which is reserved: what is held is as told, with these amounts where they are in range.
fn check_amounts<R: Abort + AllocGlobal>(rt: &R, numbers: [i64; 3], told: u32) -> Result<(), Fail> {
    let [ten, twenty] = held_before();
    let after = if told == 0 {
        given(twenty, 63, numbers)
    } else {
        twenty
    };
    let stored = after_call(rt, 2, (Call::Replace(20, 63, numbers), told))?;
    check_stored(rt, &stored, 2, &[ten, after])
}

#[test]
fn image_amounts(rt: HostRuntime) -> Result<(), Fail> {
    for (n, reserved, other) in &AMOUNTS {
        for numbers in [[*n, 0, 0], [0, *n, 0], [0, 0, *n], [*n, MOST, *n]] {
            check_amounts(&rt, numbers, *reserved)?;
            check_calls(
                &rt,
                2,
                &[
                    (Call::Replace(10, 63, numbers), *other),
                    (Call::Replace(0, 63, numbers), *other),
                    (Call::Replace(20, 64, numbers), 8),
                    (Call::Replace(65_556, 63, numbers), 8),
                ],
            )?;
        }
    }
    Ok(())
}

// The places hold the days up to 31, in their order.
fn check_filled<R: Abort + AllocGlobal>(rt: &R, places: u16) -> Result<(), Fail> {
    let mut days = Vec::new(rt.alloc());
    for taken in 0..places {
        let first = 32_u16.wrapping_sub(places);
        days.push(filled(first.wrapping_add(taken)))?;
    }
    let mut pair = Pair::new(rt, usize::from(places))?;
    pair.fill(rt, u32::from(places));
    let stored = pair.close();
    check_stored(rt, &stored, usize::from(places), days.as_slice())
}

#[test]
fn image_places(rt: HostRuntime) -> Result<(), Fail> {
    for places in [0, 1, 2, 31, 32] {
        check_filled(&rt, places)?;
    }
    Ok(())
}

// What is stored after the first calls, as the last of them tells.
fn check_first<R: Abort + AllocGlobal>(
    rt: &R,
    moves: &[Moved],
    count: usize,
    days: &[u16],
) -> Result<(), Fail> {
    let mut held = Vec::new(rt.alloc());
    for day in days {
        held.push(moved(*day))?;
    }
    let mut pair = Pair::new(rt, 5)?;
    for (call, _) in moves.iter().take(count) {
        pair.move_on(rt, *call);
    }
    let stored = pair.close();
    check_stored(rt, &stored, 5, held.as_slice())
}

fn check_moves<R: Abort + AllocGlobal>(rt: &R, moves: &[Moved]) -> Result<(), Fail> {
    for (i, (_, days)) in moves.iter().enumerate() {
        check_first(rt, moves, i.wrapping_add(1), days)?;
    }
    Ok(())
}

#[test]
fn image_order(rt: HostRuntime) -> Result<(), Fail> {
    check_moves(&rt, &UPWARDS)?;
    check_moves(&rt, &DOWNWARDS)?;
    check_moves(&rt, &MIXED)
}

// What is stored after the first stages.
fn check_stored_at<R: Abort + AllocGlobal>(
    rt: &R,
    count: usize,
    held: &[Held],
) -> Result<(), Fail> {
    let wanted = all_placed(rt.alloc(), held)?;
    let mut pair = Pair::new(rt, 4)?;
    pair.check_stages(rt, count);
    let stored = pair.close();
    check_stored(rt, &stored, 4, wanted.as_slice())
}

#[test]
fn image_accounts(rt: HostRuntime) -> Result<(), Fail> {
    for (i, held) in KEPT.iter().enumerate() {
        check_stored_at(&rt, i.wrapping_add(1), held)?;
    }
    Ok(())
}
