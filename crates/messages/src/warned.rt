// What a row of the list of warnings says.
use crate::place::Place;
use intervals::warning::Warning;
use std::fmt;
use terms::determinant::Determinant;

#[derive(Clone, Copy, Debug, PartialEq, Eq)]
pub struct Sentence<'a>(pub &'a Warning);

impl fmt::Display for Sentence<'_> {
    fn fmt<W: fmt::Write>(&self, f: &mut fmt::Formatter<W>) -> fmt::Result {
        let Warning {
            determinant,
            resource,
            day,
            hour,
        } = *self.0;
        match Determinant::try_from(determinant) {
            Ok(determinant) => {
                let unit = resource;
                write!(f, "{}", Place { determinant, unit })?;
            }
            Err(_) => f.write_str("a determinant")?,
        }
        write!(
            f,
            " is missing at the start of hour {hour} of day {day}; VSSEAMT is zero in every interval that lacks it"
        )
    }
}
