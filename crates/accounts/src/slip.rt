// A slip: a day that was reserved, for one posting or withdrawal.
ghost use Rattle.std.specs.Prelude.{◌≡◌, ◌≤◌, true, false};
ghost use Rattle.terms.specs.Limits.{last_day};

// The day, and whether the slip is still out. It has to be spent: a program that lets a live slip go is not proved.
pub struct Slip {
    day: u32,
    is_out: bool,
    ghost inside: { day ≤ last_day },
}

impl Drop for Slip {
    fn drop(self)
        requires { self.is_out ≡ false }
    {
        let Slip { day: _, is_out: _ } = self;
    }
}

impl Slip {
    pub(crate) fn new(day: u32) -> Slip
        requires { day ≤ last_day }
        ensures day { result.day ≡ day }
        ensures is_out { result.is_out ≡ true }
    {
        Slip { day, is_out: true }
    }

    // The day that it was given for.
    pub fn day(&self) -> u32
        ensures { result ≡ self.now.day }
    {
        self.day
    }

    // Takes the slip for good, and says its day.
    pub(crate) fn spend(self) -> u32
        ensures day { result ≡ self.day }
        ensures inside { result ≤ last_day }
    {
        let mut slip = self;
        slip.is_out = false;
        slip.day
    }
}
