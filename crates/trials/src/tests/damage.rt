// Images with one byte changed: the book that is opened says what the bytes say, or has no place where they are those of no book.
use super::decoding::days_said;
use super::layouts::{Held, all_placed, lay};
use super::reopened::{check_account, check_held};
use books::place::Place;
use books::shelf::Shelf;
use imagebook::bytes::Image;
use imagebook::opening::{Opened, close};
use std::process::Abort;
use std::test::Fail;

// Bytes that stand in the place of another: one bit of it changed, the most, zero and the next. Of a zero byte the last two are no further ones.
fn others(byte: u8) -> [u8; 11] {
    [
        byte ^ 1,
        byte ^ 2,
        byte ^ 4,
        byte ^ 8,
        byte ^ 16,
        byte ^ 32,
        byte ^ 64,
        byte ^ 128,
        255,
        0,
        byte.wrapping_add(1),
    ]
}

// How many images were those of a book, and how many of none.
#[derive(Clone, Copy, Debug, PartialEq, Eq)]
struct Count {
    read: u32,
    refused: u32,
}

// What the test reads in the bytes of an image of two places: the held days, if it is that of a book.
#[derive(Drop)]
struct Said {
    days: Option<Vec<Place>>,
}

impl Said {
    fn held(&self) -> &[Place] {
        match &self.days {
            Some(days) => days.as_slice(),
            None => &[],
        }
    }

    // As the test reads the bytes, so does the book; of the amounts, those of an entity are asked for too.
    fn check(&self, rt: &impl Abort, book: &Shelf<Image>, entity: usize) {
        let places = if self.days.is_some() { 2 } else { 0 };
        assert_eq!(rt; book.places(), places);
        check_held(rt, book, self.held());
        for place in self.held() {
            check_account(rt, book, place, entity);
        }
    }
}

// Whether the image with another byte is that of a book. It is opened and closed, and its bytes stay.
fn check_changed<R: Abort + AllocGlobal>(
    rt: &R,
    image: &[u8],
    at: usize,
    byte: u8,
) -> Result<bool, Fail> {
    let mut bytes = image.to_vec(rt.alloc())?;
    if let Some(old) = bytes.get_mut(at) {
        *old = byte;
    }
    let before = bytes.as_slice().to_vec(rt.alloc())?;
    let days = days_said(rt.alloc(), bytes.as_slice())?;
    let said = Said { days };
    let Opened { book, fault } = Opened::new(bytes);
    assert_eq!(rt; fault.is_none(), said.days.is_some(), "byte {at} is {byte}");
    said.check(rt, &book, (at % 1544).saturating_sub(8) / 24);
    let closed = close(book);
    assert_eq!(rt; closed.as_slice(), before.as_slice(), "byte {at} is {byte}");
    Ok(said.days.is_some())
}

fn check_byte<R: Abort + AllocGlobal>(
    rt: &R,
    image: &[u8],
    at: usize,
    old: u8,
    count: Count,
) -> Result<Count, Fail> {
    let Count {
        mut read,
        mut refused,
    } = count;
    let most = if old == 0 { 9 } else { 11 };
    for byte in others(old).iter().take(most) {
        if check_changed(rt, image, at, *byte)? {
            read = read.wrapping_add(1);
        } else {
            refused = refused.wrapping_add(1);
        }
    }
    Ok(Count { read, refused })
}

// Each byte of a quarter of an image of two places is changed in turn.
fn check_quarter<R: Abort + AllocGlobal>(
    rt: &R,
    held: &[Held],
    before: usize,
    wanted: Count,
) -> Result<(), Fail> {
    let days = all_placed(rt.alloc(), held)?;
    let image = lay(rt.alloc(), 2, days.as_slice())?;
    let mut count = Count {
        read: 0,
        refused: 0,
    };
    for (at, old) in image.as_slice().iter().enumerate().skip(before).take(772) {
        count = check_byte(rt, image.as_slice(), at, *old, count)?;
    }
    assert_eq!(rt; count, wanted);
    Ok(())
}

const MOST: i64 = 1_000_000_000_000_000;

const LEAST: i64 = -1_000_000_000_000_000;

const ONE: [Held; 1] = [(
    513,
    true,
    false,
    &[
        (0, [1, -1, 700]),
        (31, [MOST, LEAST, 0]),
        (63, [-5, 6, MOST]),
    ],
)];

const TWO: [Held; 2] = [
    (255, true, true, &[(0, [MOST, 0, -1]), (63, [0, LEAST, 9])]),
    (
        256,
        false,
        true,
        &[(1, [0, 77, 0]), (31, [LEAST, MOST, 1]), (63, [-2, 0, MOST])],
    ),
];

// How many of the changes leave a book was counted apart from these trials.
const OF_ONE: [Count; 4] = [
    Count {
        read: 5_362,
        refused: 1_640,
    },
    Count {
        read: 5_382,
        refused: 1_596,
    },
    Count {
        read: 0,
        refused: 6_948,
    },
    Count {
        read: 0,
        refused: 6_948,
    },
];

const OF_TWO: [Count; 4] = [
    Count {
        read: 5_353,
        refused: 1_627,
    },
    Count {
        read: 5_390,
        refused: 1_574,
    },
    Count {
        read: 5_342,
        refused: 1_640,
    },
    Count {
        read: 5_380,
        refused: 1_596,
    },
];

#[test]
fn day_one_first(rt: HostRuntime) -> Result<(), Fail> {
    let [count, _, _, _] = OF_ONE;
    check_quarter(&rt, &ONE, 0, count)
}

#[test]
fn day_one_second(rt: HostRuntime) -> Result<(), Fail> {
    let [_, count, _, _] = OF_ONE;
    check_quarter(&rt, &ONE, 772, count)
}

#[test]
fn day_one_third(rt: HostRuntime) -> Result<(), Fail> {
    let [_, _, count, _] = OF_ONE;
    check_quarter(&rt, &ONE, 1544, count)
}

#[test]
fn day_one_fourth(rt: HostRuntime) -> Result<(), Fail> {
    let [_, _, _, count] = OF_ONE;
    check_quarter(&rt, &ONE, 2316, count)
}

#[test]
fn day_two_first(rt: HostRuntime) -> Result<(), Fail> {
    let [count, _, _, _] = OF_TWO;
    check_quarter(&rt, &TWO, 0, count)
}

#[test]
fn day_two_second(rt: HostRuntime) -> Result<(), Fail> {
    let [_, count, _, _] = OF_TWO;
    check_quarter(&rt, &TWO, 772, count)
}

#[test]
fn day_two_third(rt: HostRuntime) -> Result<(), Fail> {
    let [_, _, count, _] = OF_TWO;
    check_quarter(&rt, &TWO, 1544, count)
}

#[test]
fn day_two_fourth(rt: HostRuntime) -> Result<(), Fail> {
    let [_, _, _, count] = OF_TWO;
    check_quarter(&rt, &TWO, 2316, count)
}
