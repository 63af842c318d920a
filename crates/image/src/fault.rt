// Why bytes are no place.

#[derive(Clone, Copy, Debug, PartialEq, Eq)]
pub enum PlaceFault {
    // The mark is above 3.
    Mark,
    // A byte that must be zero is not.
    Filler,
}
