// What a book tells of a day and an entity.
use amounts::row::Amounts;

#[derive(Clone, Copy, Debug, Default, PartialEq, Eq)]
pub struct Account {
    pub reserved: bool,
    pub billed: bool,
    pub amounts: Amounts,
}
