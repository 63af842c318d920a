// Digits and figures.
ghost use Rattle.std.specs.Prelude.{◌≡◌, ◌*◌, ◌^◌, ◌<◌, ◌≤◌, length, false, unsigned_abs, IfSome, IfOk};
ghost use Rattle.figures.specs.Numbers.{number_of, told, value_on, counted, magnitude, bounded, stored, storing, Stores};
ghost use Rattle.terms.specs.Limits.{most_stored};
ghost use Rattle.terms.specs.Determinants.{decimals_of};

use crate::cutting::cut_at;
use crate::marks::Mark;
use terms::determinant::Determinant;
use terms::question::MOST_STORED;

// Why a field is refused.
#[derive(Clone, Copy, Debug, PartialEq, Eq)]
pub enum Fault {
    // It is not written as its place asks, or DAY, UNIT or INT is out of range.
    Form,
    // Its stored number lies beyond the stored range.
    Beyond,
}

impl Fault {
    // The number of the answer.
    pub fn number(self) -> u32
        ensures { result ≡ number_of self }
    {
        match self {
            Fault::Form => 4,
            Fault::Beyond => 5,
        }
    }
}

// The number that a field of at most ten digits writes.
fn digits(field: &[u8]) -> Option<u64>
    requires { length field.now ≤ 10 }
    ensures value { result ≡ value_on 0 field.now }
    ensures bound { IfSome result (λ n. n < 10 ^ length field.now) }
{
    let mut n: u64 = 0;
    for b in field {
        let Mark::Digit(d) = Mark::from(*b) else {
            return None;
        };
        n = n * 10 + u64::from(d);
    }
    Some(n)
}

// The number that one to `most` digits write.
fn number_of(field: &[u8], most: usize) -> Option<u64>
    requires { most ≤ 10 }
    ensures value { result ≡ counted most field.now }
    ensures bound { IfSome result (λ n. n < 10 ^ most) }
{
    if field.is_empty() || field.len() > most {
        return None;
    }
    digits(field)
}

// The number that one to five digits write.
pub fn short_number(field: &[u8]) -> Option<u32>
    ensures value { result ≡ counted 5 field.now }
    ensures bound { IfSome result (λ n. n < 100000) }
{
    number_of(field, 5).map(|n| n as u32)
}

// Ten to the power of each index.
static POWERS_OF_TEN: [u64; 7] = [1, 10, 100, 1_000, 10_000, 100_000, 1_000_000];

// `n` times ten to the number of `places`.
fn shifted(n: u64, places: usize) -> u64
    requires ten_digits { n < 10000000000 }
    requires few_places { places ≤ 6 }
    ensures value { result ≡ n * 10 ^ places }
    ensures bound { result ≤ n * 1000000 }
{
    n * POWERS_OF_TEN[places]
}

// A figure with no sign, times ten to the decimals.
fn scaled(field: &[u8], determinant: Determinant) -> Option<u64>
    ensures { result ≡ magnitude (decimals_of determinant) field.now }
{
    let decimals = determinant.decimals();
    match cut_at(field, b'.') {
        None => Some(shifted(number_of(field, 10)?, decimals)),
        Some((before, after)) => {
            let whole = number_of(before, 10)?;
            let part = number_of(after, decimals)?;
            Some(shifted(whole, decimals) + shifted(part, decimals - after.len()))
        }
    }
}

// The stored number of a figure with no sign, where it is not beyond the stored range.
fn limited(figure: Option<u64>) -> Result<i64, Fault>
    ensures value { result ≡ bounded false figure }
    ensures bound { IfOk result (λ z. unsigned_abs z ≤ most_stored) }
{
    let size = figure.ok_or(Fault::Form)?;
    if size > MOST_STORED {
        return Err(Fault::Beyond);
    }
    Ok(size as i64)
}

// A figure with an optional minus, times ten to the decimals.
fn signed_number(field: &[u8], determinant: Determinant) -> Result<i64, Fault>
    ensures { result ≡ stored determinant field.now }
{
    match field {
        [b'-', rest @ ..] => Ok(-limited(scaled(rest, determinant))?),
        unsigned => limited(scaled(unsigned, determinant)),
    }
}

// The stored number of a determinant's figure: the figure times ten to the decimals, exactly.
pub fn stored_number(field: &[u8], determinant: Determinant) -> Result<i64, Fault>
    ensures answer { told result ≡ storing determinant field.now }
    ensures value { result ≡ stored determinant field.now }
    ensures law { Stores (decimals_of determinant) field.now result }
{
    signed_number(field, determinant)
}
