// Why the bytes of a file are those of no book, in words. What is wrong and at which place is the opening's answer; this only looks
// again at that place to say what was found there.
use amounts::row::Amounts;
use books::flaw::{Flaw, Wrong};
use books::place::{MOST_AMOUNT, Place};
use books::records::MOST_PLACES;
use image::fault::PlaceFault;
use image::read::place_of;
use image::write::PLACE_BYTES;
use imagebook::fault::ImageFault;
use std::fmt;

// The most bytes of a file that is a book.
pub const MOST_BYTES: usize = MOST_PLACES * PLACE_BYTES;

// The bytes of a place that need not be zero where it has no amounts: its mark and its day.
const MARK_AND_DAY: [usize; 3] = [0, 2, 3];

// The bytes of a file, or one more than a book can have, and what is wrong with them.
#[derive(Clone, Copy, Debug, PartialEq, Eq)]
pub struct Sentence<'a> {
    pub bytes: &'a [u8],
    pub fault: ImageFault,
}

impl fmt::Display for Sentence<'_> {
    fn fmt<W: fmt::Write>(&self, f: &mut fmt::Formatter<W>) -> fmt::Result {
        match self.fault {
            ImageFault::Ragged | ImageFault::TooMany => write_length(f, self.bytes.len()),
            ImageFault::Form(index, fault) => self.write_form(f, index, fault),
            ImageFault::Places(Flaw { index, wrong }) => self.write_wrong(f, index, wrong),
        }
    }
}

impl Sentence<'_> {
    // The bytes of a place; past the last, those of a free one.
    fn place_bytes(&self, index: usize) -> [u8; PLACE_BYTES] {
        let (places, _) = self.bytes.as_chunks::<PLACE_BYTES>();
        places.get(index).copied().unwrap_or([0; PLACE_BYTES])
    }

    fn place(&self, index: usize) -> Place {
        place_of(&self.place_bytes(index))
    }

    // Of a place whose bytes are in no form of one.
    fn write_form<W: fmt::Write>(
        &self,
        f: &mut fmt::Formatter<W>,
        index: usize,
        fault: PlaceFault,
    ) -> fmt::Result {
        let number = index.saturating_add(1);
        let bytes = self.place_bytes(index);
        match fault {
            PlaceFault::Mark => {
                let mark = bytes[0];
                write!(
                    f,
                    "byte 0 of place {number}, its mark, is {mark}; expected from 0 to 3"
                )
            }
            PlaceFault::Filler => {
                let (at, byte) = first_set(&bytes, &MARK_AND_DAY);
                write!(f, "byte {at} of place {number} is {byte}; expected 0")
            }
        }
    }

    // Of a place that says what no book has there.
    fn write_wrong<W: fmt::Write>(
        &self,
        f: &mut fmt::Formatter<W>,
        index: usize,
        wrong: Wrong,
    ) -> fmt::Result {
        let number = index.saturating_add(1);
        let place = self.place(index);
        let day = place.day;
        match wrong {
            Wrong::AfterFree => write!(
                f,
                "place {number} holds day {day}, and a place before it is free; expected all held days in front"
            ),
            Wrong::NotRising => {
                let before = self.place(index.saturating_sub(1)).day;
                write!(
                    f,
                    "place {number} holds day {day}, and the place before it day {before}; expected days that ascend"
                )
            }
            Wrong::Amounts(entity) => {
                let amounts = place.amounts.get(entity).copied().unwrap_or_default();
                write!(f, "place {number} holds day {day}, and there ")?;
                write_amount(f, entity, amounts)
            }
            Wrong::NotFree => {
                let (at, byte) = first_set(&self.place_bytes(index), &[]);
                write!(
                    f,
                    "byte {at} of place {number}, which has no mark, is {byte}; expected a free place, all zero"
                )
            }
        }
    }
}

// Of a file that is not the places of a book by its length alone.
fn write_length<W: fmt::Write>(f: &mut fmt::Formatter<W>, bytes: usize) -> fmt::Result {
    if bytes > MOST_BYTES {
        return write!(
            f,
            "the file has more than {MOST_BYTES} bytes, which are {MOST_PLACES} places of {PLACE_BYTES} bytes; a book has no more"
        );
    }
    let below = bytes / PLACE_BYTES * PLACE_BYTES;
    let above = below + PLACE_BYTES;
    write!(
        f,
        "the file has {bytes} bytes, which are no whole number of places of {PLACE_BYTES} bytes; {below} and {above} would be"
    )
}

// The first byte that is not zero, the others left out, and where it stands.
fn first_set(bytes: &[u8], others: &[usize]) -> (usize, u8) {
    for (at, byte) in bytes.iter().enumerate() {
        if *byte != 0 && !others.contains(&at) {
            return (at, *byte);
        }
    }
    (0, 0)
}

// The first amount of an entity that no book may keep.
fn write_amount<W: fmt::Write>(
    f: &mut fmt::Formatter<W>,
    entity: usize,
    amounts: Amounts,
) -> fmt::Result {
    let (name, amount) = first_beyond(amounts);
    write!(
        f,
        "{name} of QSE {entity} is {amount}; expected from -{MOST_AMOUNT} to {MOST_AMOUNT}"
    )
}

// In the order in which they are written; the last, where the others are in range.
fn first_beyond(amounts: Amounts) -> (&'static str, i64) {
    let Amounts {
        reactive,
        held,
        load,
    } = amounts;
    if reactive.unsigned_abs() > MOST_AMOUNT {
        ("VSSVARAMT", reactive)
    } else if held.unsigned_abs() > MOST_AMOUNT {
        ("VSSEAMT", held)
    } else {
        ("LAVSSAMT", load)
    }
}
