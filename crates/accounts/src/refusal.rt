// Why a sheet is not posted.
ghost use Rattle.std.specs.Prelude.{◌≡◌};
ghost use Rattle.accounts.specs.Refusals.{number_of};

#[derive(Clone, Copy, Debug, PartialEq, Eq)]
pub enum PostRefusal {
    // The book has no reservation of the slip's day.
    NotReserved,
    // The sheet is of another day than the slip.
    OtherDay,
    // Not all intervals of the sheet's day were worked.
    TooShort,
    // The list of bills has fewer rows than there are entities.
    FewRows,
}

impl PostRefusal {
    // The number of the answer.
    pub fn number(self) -> u32
        ensures { result ≡ number_of self }
    {
        match self {
            PostRefusal::NotReserved => 17,
            PostRefusal::OtherDay => 18,
            PostRefusal::TooShort => 19,
            PostRefusal::FewRows => 20,
        }
    }
}
