// The form of a whole image.
ghost use Rattle.std.specs.Prelude.{◌≡◌, ℕ, ◌<◌, slice_index};
ghost use Rattle.imagebook.specs.Forms.{misformed, form_of};

use crate::fault::ImageFault;
use books::records::MOST_PLACES;
use image::read::read_place;
use image::write::PLACE_BYTES;

// The first place whose bytes are in no form of one.
fn misformed(places: &[[u8; PLACE_BYTES]]) -> Option<ImageFault>
    ensures { result ≡ misformed 0 places.now }
{
    for (index, place) in places.iter().enumerate() {
        if let Err(fault) = read_place(place) {
            return Some(ImageFault::Form(index, fault));
        }
    }
    None
}

// How many places bytes are, or what is wrong with their form.
pub(crate) fn form(bytes: &[u8]) -> Result<usize, ImageFault>
    ensures { result ≡ form_of bytes.now }
{
    let (places, rest) = bytes.as_chunks::<PLACE_BYTES>();
    if !rest.is_empty() {
        return Err(ImageFault::Ragged);
    }
    if places.len() > MOST_PLACES {
        return Err(ImageFault::TooMany);
    }
    match misformed(places) {
        Some(fault) => Err(fault),
        None => Ok(places.len()),
    }
}

// That bytes are below 256 is known of their type; it changes nothing.
pub(crate) fn are_bytes(bytes: &[u8])
    ensures { (i : ℕ) → slice_index bytes.now i < 256 }
{
    if !bytes.is_empty() {
        let _ = bytes[0];
    }
}
