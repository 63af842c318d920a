// An open run.
use crate::work::Work;
use rounding::rule::Rounding;

// The rule it rounds by, what it has worked, and whether it has stopped. A run is moved: closing it takes it.
pub struct Run<R: Rounding> {
    pub(crate) rule: R,
    pub(crate) work: Work,
    pub(crate) stopped: bool,
}
