// A row of the table.
ghost use Rattle.std.specs.Prelude.{◌≡◌};

use amounts::readings::Readings;
use rounding::rules::Rule;
use terms::determinant::Determinant;

// A Resource's readings at a price of reactive energy.
#[derive(Clone, Copy)]
pub struct Priced {
    pub price: i64,
    pub readings: Readings,
}

// A field as it is written.
#[derive(Clone, Copy)]
pub enum Text {
    // 2.65
    TwoDecimals,
    // 2.650
    ThreeDecimals,
}

impl Text {
    ghost use Rattle.worked.specs.Worked.{written};

    pub fn bytes(&self) -> &'static [u8]
        ensures { result.now ≡ written self.now }
    {
        match self {
            Text::TwoDecimals => b"2.65",
            Text::ThreeDecimals => b"2.650",
        }
    }
}

// What a row is given.
#[derive(Clone, Copy)]
pub enum Figures {
    // For VSSVARAMT.
    Reactive(Priced),
    // For VSSEAMT: the readings.
    Held(Readings),
    // For LAVSSAMT: all payments together and the share of the load.
    Load(i64, u32),
    // For the VSSVARAMT of a bill to a QSE with one Resource: the Resource in the run, none where the QSE is absent from it, and in the
    // run that was billed before.
    Bill(Option<Priced>, Priced),
    // For a stored number: a determinant's field. The determinant says how many decimals a figure has at most.
    Field(Determinant, Text),
}

// What comes of figures.
#[derive(Clone, Copy, PartialEq, Eq)]
pub enum Outcome {
    // An amount in cents.
    Amount(i64),
    // A stored number.
    Stored(i64),
    // The number of the answer that refuses a field.
    Answer(u32),
}

// `expected` is what must come of the figures by the rule.
#[derive(Clone, Copy)]
pub struct Row {
    pub rule: Rule,
    pub figures: Figures,
    pub expected: Outcome,
}
