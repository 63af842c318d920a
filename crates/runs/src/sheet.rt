// A closed run.
use crate::work::Work;

// The totals of a day's run; nothing changes them any more.
#[derive(Drop)]
pub struct Sheet {
    pub(crate) work: Work,
}
