// A stored number as a figure.
ghost use Rattle.std.specs.Prelude.{Some};
ghost use Rattle.terms.specs.Determinants.{decimals_of};
ghost use Rattle.notation.specs.Figures.{figure_of};

use std::fmt;
use terms::determinant::Determinant;

// A stored number and whose it is. It is written with its decimal point, and with all decimals that its determinant has.
#[derive(Clone, Copy, Debug, PartialEq, Eq)]
pub struct Figure {
    pub stored: i64,
    pub determinant: Determinant,
}

impl fmt::Display for Figure {
    ghost output = { λ f. Some (figure_of (decimals_of f.determinant) f.stored) };

    fn fmt<W: fmt::Write>(&self, f: &mut fmt::Formatter<W>) -> fmt::Result {
        let sign = if self.stored < 0 { "-" } else { "" };
        let size = self.stored.unsigned_abs();
        let decimals = self.determinant.decimals();
        if decimals == 0 {
            return write!(f, "{sign}{size}");
        }
        let unit = 10u64.pow(decimals as u32);
        let whole = size / unit;
        let fraction = size % unit;
        write!(f, "{sign}{whole}.{fraction:0decimals$}")
    }
}
