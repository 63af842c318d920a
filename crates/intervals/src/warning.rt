// A row of the list of warnings.
use terms::question::RESOURCES;

// The warning rows that an interval may have: two for each Resource.
pub const WARNING_ROWS: usize = 2 * RESOURCES;

// A cost that is missing in the first interval of an hour: the number of the determinant, the Resource, the day and the hour.
#[derive(Clone, Copy, Debug, Default, PartialEq, Eq)]
pub struct Warning {
    pub determinant: u32,
    pub resource: u32,
    pub day: u32,
    pub hour: u32,
}
