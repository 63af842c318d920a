// The warning rows that come up in an interval.
ghost use Rattle.std.specs.Prelude.{◌≡◌, ◌+◌, ◌<◌, slice_set};
ghost use Rattle.intervals.specs.Courses.{warning_rows};

use crate::warning::{WARNING_ROWS, Warning};

// The rows for warnings that the caller lends, and how many have come up.
#[derive(Drop)]
pub(crate) struct Notes<'a> {
    pub(crate) rows: &'a mut [Warning; WARNING_ROWS],
    pub(crate) count: usize,
}

impl Notes<'_> {
    // Writes one row more.
    pub(crate) fn add(&mut self, row: Warning)
        requires { self.old.count < warning_rows }
        ensures same { self.new.rows.ghost_name ≡ self.old.rows.ghost_name }
        ensures rows { self.new.rows.now ≡ slice_set self.old.rows.now self.old.count row }
        ensures count { self.new.count ≡ self.old.count + 1 }
    {
        self.rows[self.count] = row;
        self.count += 1;
    }
}
