// What the bytes of a place say.
ghost use Rattle.std.specs.Prelude.{◌≡◌};
ghost use Rattle.image.specs.Places.{amounts_of, all_amounts, is_filled, place_of};
ghost use Rattle.image.specs.Faults.{place_read};

use crate::fault::PlaceFault;
use crate::write::PLACE_BYTES;
use amounts::row::Amounts;
use books::place::Place;
use std::array::from_fn;
use terms::question::ENTITIES;

fn amounts_of(bytes: &[u8; 24]) -> Amounts
    ensures { result ≡ amounts_of bytes.now }
{
    let (words, _) = bytes.as_chunks::<8>();
    Amounts {
        reactive: i64::from_le_bytes(words[0]),
        held: i64::from_le_bytes(words[1]),
        load: i64::from_le_bytes(words[2]),
    }
}

// Each entity's amounts, after the head of the place.
fn all_amounts(bytes: &[u8; PLACE_BYTES]) -> [Amounts; ENTITIES]
    ensures { result ≡ all_amounts bytes.now }
{
    let (parts, _) = bytes[8..].as_chunks::<24>();
    from_fn(|entity| amounts_of(&parts[entity]))
}

// Whether the bytes that say nothing are zero.
fn is_filled(bytes: &[u8; PLACE_BYTES]) -> bool
    ensures { result ≡ is_filled bytes.now }
{
    bytes[1] == 0 && bytes[4] == 0 && bytes[5] == 0 && bytes[6] == 0 && bytes[7] == 0
}

// What the bytes say, whatever their form.
#[tactic(auto, unfolding(crate::specs::Places::place_of))]
pub fn place_of(bytes: &[u8; PLACE_BYTES]) -> Place
    ensures { result ≡ place_of bytes.now }
{
    Place {
        day: u16::from_le_bytes([bytes[2], bytes[3]]),
        reserved: bytes[0] % 2 == 1,
        billed: bytes[0] >= 2,
        amounts: all_amounts(bytes),
    }
}

pub fn read_place(bytes: &[u8; PLACE_BYTES]) -> Result<Place, PlaceFault>
    ensures { result ≡ place_read bytes.now }
{
    if bytes[0] > 3 {
        return Err(PlaceFault::Mark);
    }
    if !is_filled(bytes) {
        return Err(PlaceFault::Filler);
    }
    Ok(place_of(bytes))
}
