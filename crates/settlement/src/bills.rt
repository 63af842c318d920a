// What a posting bills.
use amounts::row::Amounts;
use terms::question::ENTITIES;

// What a book has of a day: whether the day was ever billed, and each entity's amounts in cents; zeros where it was not.
#[derive(Clone, Copy, Debug, PartialEq, Eq)]
pub struct Before {
    pub billed: bool,
    pub amounts: [Amounts; ENTITIES],
}

// The charged shares of the run, what the book had of the day until then, and what each entity is billed, in cents: below zero it is paid.
#[derive(Clone, Copy, Debug, PartialEq, Eq)]
pub struct Bills {
    pub charged: u32,
    pub before: Before,
    pub rows: [Amounts; ENTITIES],
}
