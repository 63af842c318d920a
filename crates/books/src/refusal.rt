// Why a call on a book is refused.
ghost use Rattle.std.specs.Prelude.{◌≡◌};
ghost use Rattle.books.specs.Refusals.{number_of};

#[derive(Clone, Copy, Debug, PartialEq, Eq)]
pub enum BookRefusal {
    // A day, an entity or an amount lies outside its range.
    OutOfRange,
    // The day is reserved already.
    Reserved,
    // No place is left for a day that is not held yet.
    Full,
    // The day is not reserved.
    NotReserved,
}

impl BookRefusal {
    // The number of the answer.
    pub fn number(self) -> u32
        ensures { result ≡ number_of self }
    {
        match self {
            BookRefusal::OutOfRange => 8,
            BookRefusal::Reserved => 9,
            BookRefusal::Full => 10,
            BookRefusal::NotReserved => 17,
        }
    }
}
