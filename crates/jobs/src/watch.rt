// Who looks on while a day is worked.
ghost use Rattle.std.specs.Prelude.{◌≡◌, ℕ, List, take};

use intervals::warning::Warning;

// Is told of each interval that was worked, and has no part in what it comes to.
pub trait Watch {
    ghost use Rattle.intervals.specs.declared.warning.Warning.{Warning};

    // What a watch makes of all that it is told.
    ghost State: { Type 0 };

    ghost state: { Self → State };

    // What it makes of one more interval and that interval's warnings.
    ghost told: { State → ℕ → List Warning → State };

    // The first `count` rows are the interval's warnings.
    fn worked(&mut self, interval: u32, rows: &[Warning], count: usize)
        ensures { state self.new ≡ told (state self.old) interval (take count rows.now) };
}

// Looks at nothing.
#[derive(Clone, Copy, Drop)]
pub struct Unwatched;

impl Watch for Unwatched {
    ghost State = { Unit {0} };

    ghost state = { λ w. tt };

    ghost told = { λ s i rows. s };

    fn worked(&mut self, _interval: u32, _rows: &[Warning], _count: usize) {}
}
