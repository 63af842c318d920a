// A determinant and whose it is.
use intervals::fault::Fault;
use std::fmt;
use terms::determinant::Determinant;

// As: RTSPP of Resource 3
#[derive(Clone, Copy)]
pub(crate) struct Place {
    pub(crate) determinant: Determinant,
    pub(crate) unit: u32,
}

// The question at which a run stopped.
impl From<Fault> for Place {
    fn from(fault: Fault) -> Place {
        Place {
            determinant: fault.determinant,
            unit: fault.unit,
        }
    }
}

impl fmt::Display for Place {
    fn fmt<W: fmt::Write>(&self, f: &mut fmt::Formatter<W>) -> fmt::Result {
        let Place { determinant, unit } = *self;
        match determinant {
            Determinant::Vssvarpr => write!(f, "{determinant}"),
            Determinant::Lrs => write!(f, "{determinant} of QSE {unit}"),
            _ => write!(f, "{determinant} of Resource {unit}"),
        }
    }
}
