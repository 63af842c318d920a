// A day that a run may be opened for.
ghost use Rattle.std.specs.Prelude.{◌≤◌};
ghost use Rattle.terms.specs.Limits.{last_day};

#[derive(Clone, Copy, Debug, PartialEq, Eq)]
pub struct RunDay {
    pub(crate) day: u32,
    ghost inside: { day ≤ last_day },
}
