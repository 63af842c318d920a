// What is wrong with an image.
use books::flaw::Flaw;
use image::fault::PlaceFault;

// The first that holds, in this order: all places are looked at for their form before any is for what it says.
#[derive(Clone, Copy, Debug, PartialEq, Eq)]
pub enum ImageFault {
    // There are bytes behind the last whole place.
    Ragged,
    // There are more places than a book can have.
    TooMany,
    // The bytes of this place are in no form of a place.
    Form(usize, PlaceFault),
    // The places are those of no book.
    Places(Flaw),
}
