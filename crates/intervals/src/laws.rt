// What holds of the asking of every interval: the check asks for the proof here.
ghost use Rattle.std.specs.Prelude.{ℕ};
ghost use Rattle.terms.specs.Sources.{Table};
ghost use Rattle.intervals.specs.Courses.{course};
ghost use Rattle.intervals.specs.Words.{Asking};

// The course of the asking, in words: its questions, its fault and its warning rows.
pub fn asking_law()
    ensures { (t : Table) (y i : ℕ) → Asking t y i (course t y i) }
{}
