// Opening a book on an image, and closing it.
ghost use Rattle.std.specs.Prelude.{◌≡◌, ◌*◌, ◌++◌, drop, Some, Ok, Err, IfOk, IfErr};
ghost use Rattle.books.specs.Lists.{new_kept};
ghost use Rattle.books.specs.Stores.{kept_of};
ghost use Rattle.imagebook.specs.Forms.{form_of};
ghost use Rattle.imagebook.specs.Images.{places_in, image_read, opened, fault_of, beside_by, image_of};

use crate::bytes::Image;
use crate::fault::ImageFault;
use crate::form::{are_bytes, form};
use books::opening::Unfit;
use books::shelf::Shelf;

// A book on an image, and why the image is no book's, where it is none: the book then has no place.
pub struct Opened {
    pub book: Shelf<Image>,
    pub fault: Option<ImageFault>,
}

impl Image {
    // An image that is no book's: it has no place, so that nothing is ever written.
    fn aside(bytes: Vec<u8>) -> Image
        ensures bytes { result.bytes ≡ bytes }
        ensures count { result.count ≡ 0 }
    {
        are_bytes(&bytes);
        Image { bytes, count: 0 }
    }

    // An image of as many places as its form says.
    fn read(bytes: Vec<u8>) -> Result<Image, (Vec<u8>, ImageFault)>
        ensures formed { IfOk result (λ m. (m.bytes ≡ bytes) × (form_of bytes.items ≡ Ok m.count)) }
        ensures unformed { IfErr result (λ e. (e.0 ≡ bytes) × (form_of bytes.items ≡ Err e.1)) }
    {
        are_bytes(&bytes);
        match form(&bytes) {
            Ok(count) => Ok(Image { bytes, count }),
            Err(fault) => Err((bytes, fault)),
        }
    }
}

impl Opened {
    // A book of no places over these bytes.
    fn broken(bytes: Vec<u8>, fault: ImageFault) -> Opened
        ensures kept { kept_of (places_in result.book.store.count result.book.store.bytes.items) result.book.used ≡ new_kept 0 }
        ensures bytes { result.book.store.bytes.items ≡ bytes.items }
        ensures beside { drop (1544 * result.book.store.count) result.book.store.bytes.items ≡ bytes.items }
        ensures fault { result.fault ≡ Some fault }
    {
        Opened {
            book: Shelf::cleared(Image::aside(bytes)),
            fault: Some(fault),
        }
    }

    // The book that an image in form says, if it says one.
    fn standing(image: Image) -> Opened
        requires form { form_of image.bytes.items ≡ Ok image.count }
        ensures kept { kept_of (places_in result.book.store.count result.book.store.bytes.items) result.book.used ≡ opened image.bytes.items }
        ensures bytes { result.book.store.bytes.items ≡ image.bytes.items }
        ensures beside { drop (1544 * result.book.store.count) result.book.store.bytes.items ≡ beside_by (image_read image.bytes.items) image.bytes.items }
        ensures fault { result.fault ≡ fault_of (image_read image.bytes.items) }
    {
        match Shelf::standing(image) {
            Ok(book) => Opened { book, fault: None },
            Err(Unfit { store, flaw }) => {
                let Image { bytes, count: _ } = store;
                Opened::broken(bytes, ImageFault::Places(flaw))
            }
        }
    }

    // The book that the bytes say, or one of no places where they are the image of none. Nothing is written.
    pub fn new(bytes: Vec<u8>) -> Opened
        ensures kept { kept_of (places_in result.book.store.count result.book.store.bytes.items) result.book.used ≡ opened bytes.items }
        ensures bytes { result.book.store.bytes.items ≡ bytes.items }
        ensures beside { drop (1544 * result.book.store.count) result.book.store.bytes.items ≡ beside_by (image_read bytes.items) bytes.items }
        ensures fault { result.fault ≡ fault_of (image_read bytes.items) }
    {
        match Image::read(bytes) {
            Ok(image) => Opened::standing(image),
            Err((bytes, fault)) => Opened::broken(bytes, fault),
        }
    }
}

// Hands the bytes back: the image of what the book keeps, and what stood beside its places.
pub fn close(book: Shelf<Image>) -> Vec<u8>
    ensures bytes { result.items ≡ book.store.bytes.items }
    ensures image { result.items ≡ image_of (kept_of (places_in book.store.count book.store.bytes.items) book.used) ++ drop (1544 * book.store.count) book.store.bytes.items }
{
    let Image { bytes, count: _ } = book.into_store();
    bytes
}
