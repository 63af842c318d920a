// The bytes of a place: its mark, a zero byte, its day, four zero bytes, then each entity's amounts.
ghost use Rattle.std.specs.Prelude.{◌≡◌, ℕ, ◌≤◌, length, map, slice_index_or};
ghost use Rattle.std.specs.Int.{w16, to_le_bytes};
ghost use Rattle.terms.specs.Limits.{last_day};
ghost use Rattle.amounts.specs.Triples.{none};
ghost use Rattle.image.specs.Laws.{Fits, Written};
ghost use Rattle.image.specs.Places.{words, mark, head_bytes, place_bytes};

use amounts::row::Amounts;
use books::place::Place;
use terms::question::ENTITIES;

// Eight for the head, and 24 for each entity's amounts.
pub const PLACE_BYTES: usize = 1544;

// Each amount is a word of eight bytes, two's complement.
#[tactic(auto, unfolding(crate::specs::Places::word))]
fn words_of(amounts: Amounts) -> [[u8; 8]; 3]
    ensures words { result ≡ words amounts }
    ensures fits { Fits amounts }
{
    [
        amounts.reactive.to_le_bytes(),
        amounts.held.to_le_bytes(),
        amounts.load.to_le_bytes(),
    ]
}

// The words of every entity's amounts.
fn all_words(amounts: [Amounts; ENTITIES]) -> [[[u8; 8]; 3]; ENTITIES]
    ensures words { result ≡ map words amounts }
    ensures long { length amounts ≡ 64 }
    ensures fits { (q : ℕ) → Fits (slice_index_or amounts q none) }
{
    amounts.map(words_of)
}

// One if reserved, and two if billed.
fn mark_of(place: &Place) -> u8
    ensures { result ≡ mark place.now }
{
    u8::from(place.reserved) + 2 * u8::from(place.billed)
}

fn day_bytes(day: u16) -> [u8; 2]
    ensures bytes { result ≡ to_le_bytes w16 day }
    ensures small { day ≤ last_day }
{
    day.to_le_bytes()
}

// The mark, a zero byte, the day and four zero bytes.
fn head_of(place: &Place) -> [u8; 8]
    ensures bytes { result ≡ head_bytes place.now }
    ensures day { place.now.day ≤ last_day }
{
    let [low, high] = day_bytes(place.day);
    [mark_of(place), 0, low, high, 0, 0, 0, 0]
}

#[tactic(auto, using(crate::proofs::Writing::flattened, crate::proofs::Back::written), unfolding(crate::specs::Places::place_bytes))]
pub fn place_bytes(place: &Place) -> [u8; PLACE_BYTES]
    ensures bytes { result ≡ place_bytes place.now }
    ensures written { Written place.now }
{
    let words = all_words(place.amounts);
    let mut bytes = [0; PLACE_BYTES];
    let (head, amounts) = bytes.split_at_mut(8);
    head.copy_from_slice(&head_of(place));
    amounts.copy_from_slice(words.as_flattened().as_flattened());
    bytes
}
