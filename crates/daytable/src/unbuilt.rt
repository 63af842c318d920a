// Why there is no room for a table of a day.
ghost use Rattle.std.specs.Prelude.{◌≡◌, Some, codes};
ghost use Rattle.daytable.specs.declared.unbuilt.Unbuilt.TheVariants.{Memory};

use std::alloc::AllocError;
use std::error::Error;
use std::fmt;

#[derive(Clone, Copy, Debug, PartialEq, Eq)]
pub enum Unbuilt {
    // There is no room for the cuts.
    Memory,
}

impl From<AllocError> for Unbuilt {
    ghost from_gives = { λ _ e. e ≡ Memory };

    fn from(_error: AllocError) -> Unbuilt {
        Unbuilt::Memory
    }
}

impl fmt::Display for Unbuilt {
    ghost output = { λ _. Some (codes "no memory for the table of a day") };

    fn fmt<W: fmt::Write>(&self, f: &mut fmt::Formatter<W>) -> fmt::Result {
        f.write_str("no memory for the table of a day")
    }
}

impl Error for Unbuilt {}
