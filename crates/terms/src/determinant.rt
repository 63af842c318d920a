// The determinants: one row for each in one table.
ghost use Rattle.std.specs.Prelude.{◌≡◌, ◌≤◌, Some, codes};
ghost use Rattle.terms.specs.Determinants.{number_of, name_of, decimals_of, low_of, high_of, missing_of, admitted, with_number, named, found};

use std::error::Error;
use std::fmt;

#[derive(Clone, Copy, Debug, PartialEq, Eq)]
pub enum Determinant {
    Owner,
    Vssvariol,
    Urllag,
    Urllead,
    Rtvar,
    Hsl,
    Lsl,
    Rtspp,
    Rthslaiec,
    Rtvssaiec,
    Rtmg,
    Lrs,
    Vssvarpr,
}

// What is done where a determinant is missing, that is where its source answers no cut or null.
#[derive(Clone, Copy, Debug, PartialEq, Eq)]
pub enum Missing {
    // The Resource is passed over.
    Skip,
    // It counts as zero.
    Zero,
    // The amount that it enters is zero, and a warning row says so once an hour.
    Warning,
    // The run stops.
    Stop,
}

#[derive(Clone, Copy)]
struct Row {
    determinant: Determinant,
    name: &'static str,
    decimals: usize,
    low: i64,
    high: i64,
    missing: Missing,
}

// A row stands at its number less one.
const TABLE: [Row; 13] = [
    Row {
        determinant: Determinant::Owner,
        name: "OWNER",
        decimals: 0,
        low: 0,
        high: 63,
        missing: Missing::Skip,
    },
    Row {
        determinant: Determinant::Vssvariol,
        name: "VSSVARIOL",
        decimals: 3,
        low: -2_000_000,
        high: 2_000_000,
        missing: Missing::Skip,
    },
    Row {
        determinant: Determinant::Urllag,
        name: "URLLAG",
        decimals: 3,
        low: 0,
        high: 2_000_000,
        missing: Missing::Stop,
    },
    Row {
        determinant: Determinant::Urllead,
        name: "URLLEAD",
        decimals: 3,
        low: -2_000_000,
        high: 0,
        missing: Missing::Stop,
    },
    Row {
        determinant: Determinant::Rtvar,
        name: "RTVAR",
        decimals: 3,
        low: -1_000_000,
        high: 1_000_000,
        missing: Missing::Zero,
    },
    Row {
        determinant: Determinant::Hsl,
        name: "HSL",
        decimals: 3,
        low: 0,
        high: 2_000_000,
        missing: Missing::Stop,
    },
    Row {
        determinant: Determinant::Lsl,
        name: "LSL",
        decimals: 3,
        low: 0,
        high: 2_000_000,
        missing: Missing::Stop,
    },
    Row {
        determinant: Determinant::Rtspp,
        name: "RTSPP",
        decimals: 2,
        low: -1_000_000,
        high: 1_000_000,
        missing: Missing::Stop,
    },
    Row {
        determinant: Determinant::Rthslaiec,
        name: "RTHSLAIEC",
        decimals: 2,
        low: -1_000_000,
        high: 1_000_000,
        missing: Missing::Warning,
    },
    Row {
        determinant: Determinant::Rtvssaiec,
        name: "RTVSSAIEC",
        decimals: 2,
        low: -1_000_000,
        high: 1_000_000,
        missing: Missing::Warning,
    },
    Row {
        determinant: Determinant::Rtmg,
        name: "RTMG",
        decimals: 3,
        low: -1_000_000,
        high: 1_000_000,
        missing: Missing::Zero,
    },
    Row {
        determinant: Determinant::Lrs,
        name: "LRS",
        decimals: 6,
        low: 0,
        high: 1_000_000,
        missing: Missing::Zero,
    },
    Row {
        determinant: Determinant::Vssvarpr,
        name: "VSSVARPR",
        decimals: 2,
        low: 0,
        high: 1_000_000,
        missing: Missing::Stop,
    },
];

impl Determinant {
    // Its name in a file.
    pub fn name(self) -> &'static str
        ensures { result.now ≡ name_of self }
    {
        TABLE[self as usize].name
    }

    // How many decimals its stored numbers carry.
    pub fn decimals(self) -> usize
        ensures value { result ≡ decimals_of self }
        ensures bound { result ≤ 6 }
    {
        TABLE[self as usize].decimals
    }

    // The smallest number that settlement takes for it.
    pub fn low(self) -> i64
        ensures { result ≡ low_of self }
    {
        TABLE[self as usize].low
    }

    // The largest number that it takes.
    pub fn high(self) -> i64
        ensures { result ≡ high_of self }
    {
        TABLE[self as usize].high
    }

    // What settlement does where it is missing.
    pub fn missing(self) -> Missing
        ensures { result ≡ missing_of self }
    {
        TABLE[self as usize].missing
    }

    // Whether a stored number lies in its range.
    pub fn admits(self, stored: i64) -> bool
        ensures { result ≡ admitted self stored }
    {
        (self.low()..=self.high()).contains(&stored)
    }
}

// Its number, from 1.
impl From<Determinant> for u32 {
    ghost from_gives = { λ d n. n ≡ number_of d };

    fn from(determinant: Determinant) -> u32 {
        determinant as u32 + 1
    }
}

// A number or a name that no determinant has.
#[derive(Clone, Copy, Debug, PartialEq, Eq)]
pub struct NoDeterminant;

impl TryFrom<u32> for Determinant {
    type Error = NoDeterminant;

    ghost try_from_gives = { λ n r. found r ≡ with_number n };

    fn try_from(number: u32) -> Result<Determinant, NoDeterminant> {
        let place = number.checked_sub(1).ok_or(NoDeterminant)?;
        TABLE
            .get(place as usize)
            .map(|row| row.determinant)
            .ok_or(NoDeterminant)
    }
}

// A name is written in capitals, as in a file.
impl TryFrom<&[u8]> for Determinant {
    type Error = NoDeterminant;

    ghost try_from_gives = { λ bs r. found r ≡ named bs.now };

    fn try_from(name: &[u8]) -> Result<Determinant, NoDeterminant> {
        TABLE
            .iter()
            .find(|row| name == row.name.as_bytes())
            .map(|row| row.determinant)
            .ok_or(NoDeterminant)
    }
}

impl fmt::Display for Determinant {
    ghost output = { λ d. Some (name_of d) };

    fn fmt<W: fmt::Write>(&self, f: &mut fmt::Formatter<W>) -> fmt::Result {
        f.write_str(self.name())
    }
}

impl fmt::Display for NoDeterminant {
    ghost output = { λ _. Some (codes "no determinant has this number or name") };

    fn fmt<W: fmt::Write>(&self, f: &mut fmt::Formatter<W>) -> fmt::Result {
        f.write_str("no determinant has this number or name")
    }
}

impl Error for NoDeterminant {}
