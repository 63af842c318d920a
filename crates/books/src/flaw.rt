// What is wrong with places that stand as they were left.

#[derive(Clone, Copy, Debug, PartialEq, Eq)]
pub enum Wrong {
    // A day is held after a free place.
    AfterFree,
    // The day is not above the one before it.
    NotRising,
    // The amounts of this entity lie outside their range.
    Amounts(usize),
    // The place has neither mark, and so is free, but is not all zero.
    NotFree,
}

// The first place at fault, and its fault.
#[derive(Clone, Copy, Debug, PartialEq, Eq)]
pub struct Flaw {
    pub index: usize,
    pub wrong: Wrong,
}
