// `settle book show PATH [DAY]`
use crate::console::Console;
use crate::words::number_of;
use books::place::Place;
use books::refusal::BookRefusal;
use books::shelf::Shelf;
use imagebook::bytes::Image;
use imagebook::opening::{Opened, close};
use messages::broken::MOST_BYTES;
use messages::printable::Printable;
use messages::{broken, marks, table};
use std::io;
use std::rt::Files;

const EXAMPLE: &str = "settle book show book.bin 7";

// How many days a book holds.
fn count_held(book: &Shelf<Image>) -> usize {
    (0..book.places())
        .filter(|index| book.held(*index).is_some())
        .count()
}

// What a book keeps of a day; no mark and no amounts where it is not held.
fn seek(book: &Shelf<Image>, day: u16) -> Place {
    for index in 0..book.places() {
        if let Some(place) = book.held(index)
            && place.day == day
        {
            return place;
        }
    }
    Place::blank(day)
}

impl<R: Files + Print + Eprint + AllocGlobal> Console<'_, R> {
    // What a book keeps, of one day or of all; false where the file is no book or the command is wrong.
    pub(crate) fn show_book(&self, path: &str, day: Option<&str>) -> anyhow::Result<bool> {
        let Some(word) = day else {
            return self.show_file(path, None);
        };
        let number = match number_of("DAY", word, EXAMPLE) {
            Ok(number) => number,
            Err(fault) => return self.refuse(fault),
        };
        match u16::try_from(number) {
            Ok(day) => self.show_file(path, Some(day)),
            Err(_) => self.say_day_refused(word, BookRefusal::OutOfRange.number()),
        }
    }

    // The book is closed whatever comes of it, and nothing is said before the whole file was looked at.
    fn show_file(&self, path: &str, day: Option<u16>) -> anyhow::Result<bool> {
        let Some(bytes) = self.load_most(path, MOST_BYTES)? else {
            return Ok(false);
        };
        self.warn_empty(path, &bytes)?;
        let Opened { book, fault } = Opened::new(bytes);
        let said = match fault {
            None => self.say_book(path, &book, day),
            Some(_) => Ok(()),
        };
        let bytes = close(book);
        said?;
        let Some(fault) = fault else {
            return Ok(true);
        };
        let bytes = bytes.as_slice();
        let why = broken::Sentence { bytes, fault };
        let path = Printable(path);
        println!(self.rt; "{path}: no book: {why}")?;
        Ok(false)
    }

    // An empty file is a book of no places; it may also have come to be moved over one.
    pub(crate) fn warn_empty(&self, path: &str, bytes: &[u8]) -> io::Result<()> {
        if !bytes.is_empty() {
            return Ok(());
        }
        let path = Printable(path);
        println!(self.rt; "{path}: the file is empty, which is a book of 0 places")
    }

    fn say_book(&self, path: &str, book: &Shelf<Image>, day: Option<u16>) -> io::Result<()> {
        let places = book.places();
        let held = count_held(book);
        let path = Printable(path);
        println!(self.rt; "{path}: book, {places} places, {held} days held")?;
        match day {
            Some(day) => self.say_day(&seek(book, day)),
            None => self.say_days(book),
        }
    }

    // The held days, from the lowest on.
    fn say_days(&self, book: &Shelf<Image>) -> io::Result<()> {
        for index in 0..book.places() {
            if let Some(place) = book.held(index) {
                self.say_day(&place)?;
            }
        }
        Ok(())
    }

    fn say_day(&self, place: &Place) -> io::Result<()> {
        let day = place.day;
        let state = marks::state(place.reserved, place.billed);
        println!(self.rt; "day {day}: {state}")?;
        if place.reserved || place.billed {
            self.say_table(&place.amounts, table::total(&place.amounts))?;
        }
        Ok(())
    }
}
