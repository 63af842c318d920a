// What an image says, read here byte by byte.
use super::calls::{MOST, day, row};
use books::place::Place;
use std::alloc::Global;
use std::test::Fail;

// What 1,544 bytes say.
enum Part {
    Nothing,
    Free,
    Day(Place),
}

const LEAST: i64 = -1_000_000_000_000_000;

// Eight bytes, the low one first; the top one is below zero from 128 on.
fn number(bytes: &[u8]) -> i64 {
    let mut number: i64 = match bytes.last() {
        Some(top) if *top >= 128 => -1,
        _ => 0,
    };
    for byte in bytes.iter().rev() {
        number = number.wrapping_mul(256).wrapping_add(i64::from(*byte));
    }
    number
}

fn is_small(number: i64) -> bool {
    LEAST <= number && number <= MOST
}

// Three amounts, unless one is out of range.
fn numbers(bytes: &[u8]) -> Option<[i64; 3]> {
    let reactive = number(bytes.get(..8)?);
    let held = number(bytes.get(8..16)?);
    let load = number(bytes.get(16..24)?);
    let small = is_small(reactive) && is_small(held) && is_small(load);
    small.then_some([reactive, held, load])
}

// A held day: the entities' amounts follow the head of eight bytes.
fn held(mark: u8, number: u16, rest: &[u8]) -> Part {
    let mut place = day(number, mark % 2 == 1, mark / 2 == 1);
    for (amounts, bytes) in place.amounts.iter_mut().zip(rest.chunks_exact(24)) {
        match numbers(bytes) {
            Some(three) => *amounts = row(three),
            None => return Part::Nothing,
        }
    }
    Part::Day(place)
}

fn said(bytes: &[u8]) -> Part {
    let [mark, 0, low, high, 0, 0, 0, 0, rest @ ..] = bytes else {
        return Part::Nothing;
    };
    match *mark {
        0 if bytes.iter().all(|byte| *byte == 0) => Part::Free,
        1..=3 => held(*mark, u16::from(*low) | (u16::from(*high) << 8), rest),
        _ => Part::Nothing,
    }
}

// The days that an image holds, or nothing where it is that of no book.
pub fn days_said(heap: Global, bytes: &[u8]) -> Result<Option<Vec<Place>>, Fail> {
    if bytes.len() % 1544 != 0 || bytes.len() > 49_408 {
        return Ok(None);
    }
    let mut days: Vec<Place> = Vec::new(heap);
    let mut free = false;
    for part in bytes.chunks_exact(1544) {
        match said(part) {
            Part::Nothing => return Ok(None),
            Part::Free => free = true,
            Part::Day(place) => {
                let rises = days.last().is_none_or(|last| last.day < place.day);
                if free || !rises {
                    return Ok(None);
                }
                days.push(place)?;
            }
        }
    }
    Ok(Some(days))
}
