// Images, laid out here byte by byte: a place of 1,544 bytes for each held day, and zeros behind them.
use super::calls::{day, given};
use amounts::row::Amounts;
use books::place::Place;
use std::alloc::Global;
use std::test::Fail;

// A day, whether it is reserved, whether it is billed, and the entities that have amounts.
pub type Held = (u16, bool, bool, &'static [(usize, [i64; 3])]);

pub fn placed(held: &Held) -> Place {
    let (number, reserved, billed, rows) = held;
    let mut place = day(*number, *reserved, *billed);
    for (entity, numbers) in rows.iter() {
        place = given(place, *entity, *numbers);
    }
    place
}

pub fn all_placed(heap: Global, held: &[Held]) -> Result<Vec<Place>, Fail> {
    let mut places = Vec::new(heap);
    for one in held {
        places.push(placed(one))?;
    }
    Ok(places)
}

// Eight bytes, the low one first; below zero in two's complement.
fn lay_number(bytes: &mut Vec<u8>, number: i64) -> Result<(), Fail> {
    let mut rest = number;
    for _ in 0..8 {
        bytes.push(u8::try_from(rest.rem_euclid(256))?)?;
        rest = rest.div_euclid(256);
    }
    Ok(())
}

fn lay_amounts(bytes: &mut Vec<u8>, amounts: Amounts) -> Result<(), Fail> {
    lay_number(bytes, amounts.reactive)?;
    lay_number(bytes, amounts.held)?;
    lay_number(bytes, amounts.load)
}

fn mark(place: &Place) -> u8 {
    match (place.reserved, place.billed) {
        (false, false) => 0,
        (true, false) => 1,
        (false, true) => 2,
        (true, true) => 3,
    }
}

fn lay_place(bytes: &mut Vec<u8>, place: &Place) -> Result<(), Fail> {
    let low = u8::try_from(place.day % 256)?;
    let high = u8::try_from(place.day / 256)?;
    bytes.extend_from_slice(&[mark(place), 0, low, high, 0, 0, 0, 0])?;
    for amounts in &place.amounts {
        lay_amounts(bytes, *amounts)?;
    }
    Ok(())
}

// So many places: these, and free ones behind them.
pub fn lay(heap: Global, places: usize, held: &[Place]) -> Result<Vec<u8>, Fail> {
    let mut bytes = Vec::new(heap);
    for place in held {
        lay_place(&mut bytes, place)?;
    }
    for _ in held.len()..places {
        bytes.extend_from_slice(&[0; 1544])?;
    }
    Ok(bytes)
}
