// Opening an image that is no book's: the fault that is told, and that nothing is written.
use super::calls::{Call, MOST, NONE, PAST, Step, check_steps, given};
use super::layouts::{Held, all_placed, lay};
use super::stages::check_reading;
use books::book::Book;
use books::flaw::{Flaw, Wrong};
use image::fault::PlaceFault;
use imagebook::fault::ImageFault;
use imagebook::opening::{Opened, close};
use std::alloc::Global;
use std::process::Abort;
use std::test::Fail;

// The answers of a book of no places.
const NO_PLACES: [Step; 15] = [
    (Call::Reserve(0), 10),
    (Call::Reserve(5), 10),
    (Call::Reserve(65_535), 10),
    (Call::Reserve(65_536), 8),
    (Call::Reserve(4_294_967_295), 8),
    (Call::Read(65_536, 0), 8),
    (Call::Read(0, 64), 8),
    (Call::Replace(5, 0, NONE), 17),
    (Call::Replace(65_536, 0, NONE), 8),
    (Call::Replace(5, 64, NONE), 8),
    (Call::Replace(5, 0, [0, 0, PAST]), 8),
    (Call::AsBilled(5), 17),
    (Call::AsBilled(65_536), 8),
    (Call::AsUnbilled(9), 17),
    (Call::AsUnbilled(65_536), 8),
];

pub fn check_no_places<B: Book>(rt: &impl Abort, book: &mut B) {
    check_steps(rt, book, &NO_PLACES);
    for day in [0, 5, 9, 65_535] {
        for entity in [0, 31, 63] {
            check_reading(rt, book, (day, entity, false, false, NONE));
        }
    }
}

// The fault is told, the book has no place, and the bytes are handed back as they were.
fn check_fault<R: Abort + AllocGlobal>(
    rt: &R,
    bytes: Vec<u8>,
    fault: ImageFault,
) -> Result<(), Fail> {
    let before = bytes.as_slice().to_vec(rt.alloc())?;
    let Opened {
        mut book,
        fault: told,
    } = Opened::new(bytes);
    let places = book.places();
    let first = book.held(0);
    check_no_places(rt, &mut book);
    let closed = close(book);
    assert_eq!(rt; told, Some(fault));
    assert_eq!(rt; places, 0);
    assert_eq!(rt; first, None);
    assert_eq!(rt; closed.as_slice(), before.as_slice());
    Ok(())
}

// A length that no image has. Of more than 32 places, bytes behind the last whole one are told first.
const LENGTHS: [(usize, ImageFault); 12] = [
    (1, ImageFault::Ragged),
    (1543, ImageFault::Ragged),
    (1545, ImageFault::Ragged),
    (3087, ImageFault::Ragged),
    (3089, ImageFault::Ragged),
    (49_407, ImageFault::Ragged),
    (49_409, ImageFault::Ragged),
    (50_951, ImageFault::Ragged),
    (50_952, ImageFault::TooMany),
    (50_953, ImageFault::Ragged),
    (52_496, ImageFault::TooMany),
    (154_400, ImageFault::TooMany),
];

// Whatever the bytes are: of 4 and of 255 each place has a mark that is none.
#[test]
fn lengths_of_images(rt: HostRuntime) -> Result<(), Fail> {
    for (length, fault) in &LENGTHS {
        for byte in [0, 1, 4, 255] {
            let bytes = vec![in rt.alloc(); byte; *length]?;
            check_fault(&rt, bytes, *fault)?;
        }
    }
    Ok(())
}

// Held days and one free place, with other bytes at some indices.
fn edited(heap: Global, held: &[Held], edits: &[(usize, u8)]) -> Result<Vec<u8>, Fail> {
    let days = all_placed(heap, held)?;
    let mut bytes = lay(heap, held.len().wrapping_add(1), days.as_slice())?;
    for (at, byte) in edits {
        if let Some(old) = bytes.get_mut(*at) {
            *old = *byte;
        }
    }
    Ok(bytes)
}

const FIVE: Held = (5, true, false, &[(0, [1, 2, 3])]);

const NINE: Held = (9, false, true, &[(63, [-4, 0, MOST])]);

const FREE: Held = (0, false, false, &[]);

// Each place of three with a byte that it cannot have.
fn check_form<R: Abort + AllocGlobal>(
    rt: &R,
    at: usize,
    byte: u8,
    fault: PlaceFault,
) -> Result<(), Fail> {
    for (place, start) in [0, 1544, 3088].iter().enumerate() {
        let edits = [(at.wrapping_add(*start), byte)];
        let bytes = edited(rt.alloc(), &[FIVE, NINE], &edits)?;
        check_fault(rt, bytes, ImageFault::Form(place, fault))?;
    }
    Ok(())
}

#[test]
fn marks_out_of_form(rt: HostRuntime) -> Result<(), Fail> {
    for byte in [4, 5, 7, 8, 16, 32, 64, 128, 254, 255] {
        check_form(&rt, 0, byte, PlaceFault::Mark)?;
    }
    Ok(())
}

#[test]
fn fillers_out_of_form(rt: HostRuntime) -> Result<(), Fail> {
    for at in [1, 4, 5, 6, 7] {
        for byte in [1, 3, 128, 255] {
            check_form(&rt, at, byte, PlaceFault::Filler)?;
        }
    }
    Ok(())
}

const FAR_FIVE: Held = (5, true, false, &[(0, [PAST, 0, 0])]);

const UNMARKED: Held = (7, false, false, &[]);

// Held days, other bytes, and the place whose form is told: the first in the image, its mark before its zeros, and any form before what places say.
const FORMS: [(&[Held], &[(usize, u8)], usize, PlaceFault); 12] = [
    (&[FIVE, NINE], &[(1, 1), (0, 4)], 0, PlaceFault::Mark),
    (&[FIVE, NINE], &[(7, 1), (1544, 4)], 0, PlaceFault::Filler),
    (&[FIVE, NINE], &[(1544, 4), (1548, 1)], 1, PlaceFault::Mark),
    (
        &[FIVE, NINE],
        &[(3095, 1), (1544, 255)],
        1,
        PlaceFault::Mark,
    ),
    (
        &[FIVE, NINE],
        &[(3088, 8), (1549, 2)],
        1,
        PlaceFault::Filler,
    ),
    (&[NINE, FIVE], &[(3088, 4)], 2, PlaceFault::Mark),
    (&[NINE, FIVE], &[(1545, 1)], 1, PlaceFault::Filler),
    (&[NINE, FIVE], &[(4, 1)], 0, PlaceFault::Filler),
    (&[FAR_FIVE, NINE], &[(1549, 1)], 1, PlaceFault::Filler),
    (&[UNMARKED, NINE], &[(3094, 9)], 2, PlaceFault::Filler),
    (&[FREE, NINE], &[(1544, 6)], 1, PlaceFault::Mark),
    (&[FREE, NINE], &[(3088, 255)], 2, PlaceFault::Mark),
];

#[test]
fn forms_before_places(rt: HostRuntime) -> Result<(), Fail> {
    for (held, edits, place, fault) in &FORMS {
        let bytes = edited(rt.alloc(), held, edits)?;
        check_fault(&rt, bytes, ImageFault::Form(*place, *fault))?;
    }
    Ok(())
}

const FAR_31_63: Held = (5, true, false, &[(63, [0, PAST, 0]), (31, [0, 0, PAST])]);

// Held days that no book keeps so, and the first place at fault.
const FLAWS: [(&[Held], usize, Wrong); 34] = [
    (&[UNMARKED], 0, Wrong::NotFree),
    (&[(1, false, false, &[])], 0, Wrong::NotFree),
    (&[(256, false, false, &[])], 0, Wrong::NotFree),
    (&[(65_535, false, false, &[])], 0, Wrong::NotFree),
    (&[(0, false, false, &[(0, [1, 0, 0])])], 0, Wrong::NotFree),
    (&[(0, false, false, &[(0, [0, 1, 0])])], 0, Wrong::NotFree),
    (&[(0, false, false, &[(0, [0, 0, 1])])], 0, Wrong::NotFree),
    (&[(0, false, false, &[(31, [0, -1, 0])])], 0, Wrong::NotFree),
    (
        &[(0, false, false, &[(63, [0, 0, i64::MIN])])],
        0,
        Wrong::NotFree,
    ),
    (&[FIVE, UNMARKED], 1, Wrong::NotFree),
    (&[FREE, UNMARKED], 1, Wrong::NotFree),
    (
        &[FIVE, NINE, (0, false, false, &[(63, [0, 0, 1])])],
        2,
        Wrong::NotFree,
    ),
    (&[FREE, FIVE], 1, Wrong::AfterFree),
    (&[FREE, (0, true, false, &[])], 1, Wrong::AfterFree),
    (&[FREE, FREE, NINE], 2, Wrong::AfterFree),
    (&[FIVE, FREE, NINE], 2, Wrong::AfterFree),
    (&[FIVE, FREE, FREE, NINE], 3, Wrong::AfterFree),
    (&[FIVE, FIVE], 1, Wrong::NotRising),
    (&[FIVE, (5, false, true, &[])], 1, Wrong::NotRising),
    (&[NINE, FIVE], 1, Wrong::NotRising),
    (
        &[(0, true, true, &[]), (0, true, false, &[])],
        1,
        Wrong::NotRising,
    ),
    (
        &[(65_535, true, true, &[]), (65_535, true, false, &[])],
        1,
        Wrong::NotRising,
    ),
    (
        &[(65_535, true, true, &[]), (0, true, false, &[])],
        1,
        Wrong::NotRising,
    ),
    (
        &[(256, true, true, &[]), (255, true, false, &[])],
        1,
        Wrong::NotRising,
    ),
    (&[FIVE, NINE, (8, true, false, &[])], 2, Wrong::NotRising),
    (&[FIVE, NINE, FIVE], 2, Wrong::NotRising),
    (&[FIVE, NINE, NINE, FIVE], 2, Wrong::NotRising),
    (&[FAR_31_63, NINE], 0, Wrong::Amounts(31)),
    (&[FAR_FIVE, FAR_FIVE], 0, Wrong::Amounts(0)),
    (&[FIVE, FAR_FIVE], 1, Wrong::NotRising),
    (&[FREE, FAR_FIVE], 1, Wrong::AfterFree),
    (&[FREE, NINE, FIVE], 1, Wrong::AfterFree),
    (&[UNMARKED, FREE, FIVE], 0, Wrong::NotFree),
    (&[FREE, FIVE, UNMARKED], 1, Wrong::AfterFree),
];

#[test]
fn places_of_no_book(rt: HostRuntime) -> Result<(), Fail> {
    for (held, index, wrong) in &FLAWS {
        let flaw = Flaw {
            index: *index,
            wrong: *wrong,
        };
        let bytes = edited(rt.alloc(), held, &[])?;
        check_fault(&rt, bytes, ImageFault::Places(flaw))?;
    }
    Ok(())
}

const FAR: [i64; 4] = [PAST, -1_000_000_000_000_001, i64::MIN, i64::MAX];

// An entity's amounts that are out of range, on each of three held days.
fn check_far<R: Abort + AllocGlobal>(rt: &R, entity: usize, numbers: [i64; 3]) -> Result<(), Fail> {
    let days = all_placed(rt.alloc(), &[FIVE, NINE, (12, true, true, &[])])?;
    for index in 0..3 {
        let mut held = days.as_slice().to_vec(rt.alloc())?;
        if let Some(place) = held.get_mut(index) {
            *place = given(*place, entity, numbers);
        }
        let bytes = lay(rt.alloc(), 4, held.as_slice())?;
        let wrong = Wrong::Amounts(entity);
        check_fault(rt, bytes, ImageFault::Places(Flaw { index, wrong }))?;
    }
    Ok(())
}

#[test]
fn amounts_of_no_book(rt: HostRuntime) -> Result<(), Fail> {
    for n in &FAR {
        for entity in [0, 31, 63] {
            for numbers in [[*n, 0, 0], [0, *n, 0], [0, 0, *n]] {
                check_far(&rt, entity, numbers)?;
            }
        }
    }
    Ok(())
}
