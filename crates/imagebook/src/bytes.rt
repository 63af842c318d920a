// A store in an image of bytes.
ghost use Rattle.std.specs.Prelude.{◌≡◌, ℕ, ◌+◌, ◌*◌, ◌<◌, ◌≤◌, true, drop, length, slice_index};
ghost use Rattle.std.specs.Simd.{first_chunks};
ghost use Rattle.image.specs.Laws.{Written};
ghost use Rattle.image.specs.Places.{place_bytes};
ghost use Rattle.imagebook.specs.Forms.{all_formed};
ghost use Rattle.imagebook.specs.Images.{over, places_in};
ghost use Rattle.imagebook.specs.ImagesKept.{few_places, pinned_places};

use books::place::Place;
use books::store::Store;
use image::read::place_of;
use image::write::{PLACE_BYTES, place_bytes};

// The first `count` places of 1,544 bytes are the book's, and no others are touched: all of them in an image in form, none in one that is not.
#[derive(Drop)]
pub struct Image {
    pub(crate) bytes: Vec<u8>,
    pub(crate) count: usize,
    ghost few: { count ≤ 32 },
    ghost within: { 1544 * count ≤ length bytes.items },
    ghost small: { (i : ℕ) → slice_index bytes.items i < 256 },
    ghost formed: { all_formed (first_chunks 1544 count bytes.items) ≡ true },
}

// Writes a place over the one that begins at a byte.
fn write_over(bytes: &mut [u8], start: usize, place: &Place)
    requires within { start + 1544 ≤ length bytes.old }
    ensures over { bytes.new ≡ over start 1544 bytes.old (place_bytes place.now) }
    ensures written { Written place.now }
{
    bytes[start..start + PLACE_BYTES].copy_from_slice(&place_bytes(place));
}

impl Store for Image {
    ghost slots = { λ s. places_in s.count s.bytes.items };

    ghost Cell = { ℕ };

    ghost written = { place_bytes };

    ghost beside = { λ s. drop (1544 * s.count) s.bytes.items };

    ghost stored = { λ s. s.bytes.items };

    ghost few = { λ s. few_places s.count s.bytes.items s.few };

    ghost pinned = { λ s. pinned_places s.count s.bytes.items s.within s.small s.formed };

    fn count(&self) -> usize {
        self.count
    }

    fn place(&self, i: usize) -> Place {
        if i >= self.count {
            return Place::blank(0);
        }
        let (places, _) = self.bytes.as_chunks::<PLACE_BYTES>();
        place_of(&places[i])
    }

    fn put(&mut self, i: usize, place: Place) {
        if i < self.count {
            write_over(&mut self.bytes, i * PLACE_BYTES, &place);
        }
    }
}
