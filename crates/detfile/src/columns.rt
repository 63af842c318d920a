// The columns of a file.
ghost use Rattle.std.specs.Prelude.{◌≡◌, ◌<◌, ◌≤◌, [], ◌∷◌, ◌++◌, length};

use terms::determinant::Determinant;

// No name stands twice, so there are at most as many columns as determinants.
pub const MOST_COLUMNS: usize = 13;

// The determinants that a line of names has, in its order.
#[derive(Clone, Copy)]
pub struct Columns {
    determinants: [Determinant; MOST_COLUMNS],
    count: usize,
    ghost few: { count ≤ 13 },
}

impl Columns {
    ghost use Rattle.detfile.specs.Names.{columns_in, held};

    pub fn as_slice(&self) -> &[Determinant]
        ensures value { result.now ≡ columns_in self.now }
        ensures few { length result.now ≤ 13 }
    {
        &self.determinants[..self.count]
    }

    // Whether a determinant is one of these.
    pub(crate) fn contains(&self, determinant: Determinant) -> bool
        ensures { result ≡ held determinant (columns_in self.now) }
    {
        self.as_slice().contains(&determinant)
    }

    // No columns.
    pub fn none() -> Columns
        ensures { columns_in result ≡ [] }
    {
        Columns {
            determinants: [Determinant::Owner; MOST_COLUMNS],
            count: 0,
        }
    }

    // Puts one more after these.
    pub(crate) fn push(&mut self, determinant: Determinant)
        requires { length (columns_in self.old) < 13 }
        ensures { columns_in self.new ≡ columns_in self.old ++ determinant ∷ [] }
    {
        self.determinants[self.count] = determinant;
        self.count += 1;
    }
}
