// `settle book new PATH PLACES`
use crate::console::Console;
use crate::save::save_new;
use crate::words::{NoNumber, number_of};
use books::records::MOST_PLACES;
use image::write::PLACE_BYTES;
use imagebook::clear::clear_image;
use messages::printable::Printable;
use std::fmt;
use std::fs::File;
use std::rt::Files;

const EXAMPLE: &str = "settle book new book.bin 32";

// What is wrong with the number of places.
#[derive(Clone, Copy)]
enum PlacesFault<'a> {
    NoNumber(NoNumber<'a>),
    TooMany(&'a str),
}

impl<'a> From<NoNumber<'a>> for PlacesFault<'a> {
    fn from(fault: NoNumber<'a>) -> PlacesFault<'a> {
        PlacesFault::NoNumber(fault)
    }
}

impl fmt::Display for PlacesFault<'_> {
    fn fmt<W: fmt::Write>(&self, f: &mut fmt::Formatter<W>) -> fmt::Result {
        match self {
            PlacesFault::NoNumber(fault) => write!(f, "{fault}"),
            PlacesFault::TooMany(word) => {
                let word = Printable(word);
                write!(f, "PLACES is {word}; a book has from 0 to {MOST_PLACES}")
            }
        }
    }
}

// How many bytes an image of so many places has.
fn image_bytes<'a>(word: &'a str) -> Result<usize, PlacesFault<'a>> {
    let places = number_of("PLACES", word, EXAMPLE)? as usize;
    if places > MOST_PLACES {
        return Err(PlacesFault::TooMany(word));
    }
    Ok(places * PLACE_BYTES)
}

impl<R: Files<File = File> + Print + Eprint + AllocGlobal> Console<'_, R> {
    // A new book in a file of its own; false where there is none.
    pub(crate) fn new_book(&self, path: &str, places: &str) -> anyhow::Result<bool> {
        let length = match image_bytes(places) {
            Ok(length) => length,
            Err(fault) => return self.refuse(fault),
        };
        let mut bytes = vec![in self.rt.alloc(); 0; length]?;
        clear_image(bytes.as_mut_slice());
        let saved = save_new(self.rt, path, bytes.as_slice());
        let path = Printable(path);
        if let Err(fault) = saved {
            return self.refuse(format_args!("{path}: {fault}"));
        }
        let places = length / PLACE_BYTES;
        println!(self.rt; "{path}: new book, {places} places")?;
        Ok(true)
    }
}
