// The figures of one Resource in one interval, as stored numbers.
ghost use Rattle.std.specs.Prelude.{◌≡◌};
ghost use Rattle.std.specs.List.{list_all};
ghost use Rattle.amounts.specs.Readings.{cost_in, figures_of, ranged};

use terms::determinant::Determinant;

// A missing RTVAR or RTMG is zero here; a missing cost is none.
#[derive(Clone, Copy)]
pub struct Readings {
    pub vssvariol: i64,
    pub urllag: i64,
    pub urllead: i64,
    pub rtvar: i64,
    pub hsl: i64,
    pub lsl: i64,
    pub rtspp: i64,
    pub rthslaiec: Option<i64>,
    pub rtvssaiec: Option<i64>,
    pub rtmg: i64,
}

fn all_in_range(figures: &[(Determinant, Option<i64>)]) -> bool
    ensures { result ≡ list_all (λ f. cost_in f.0 f.1) figures.now }
{
    figures.iter().all(|(determinant, stored)| stored.is_none_or(|x| determinant.admits(x)))
}

impl Readings {
    // Each figure beside its determinant.
    fn figures(&self) -> [(Determinant, Option<i64>); 10]
        ensures { result ≡ figures_of self.now }
    {
        [
            (Determinant::Vssvariol, Some(self.vssvariol)),
            (Determinant::Urllag, Some(self.urllag)),
            (Determinant::Urllead, Some(self.urllead)),
            (Determinant::Rtvar, Some(self.rtvar)),
            (Determinant::Hsl, Some(self.hsl)),
            (Determinant::Lsl, Some(self.lsl)),
            (Determinant::Rtspp, Some(self.rtspp)),
            (Determinant::Rthslaiec, self.rthslaiec),
            (Determinant::Rtvssaiec, self.rtvssaiec),
            (Determinant::Rtmg, Some(self.rtmg)),
        ]
    }

    // Whether each figure lies in its determinant's range.
    pub fn are_in_range(&self) -> bool
        ensures { result ≡ ranged self.now }
    {
        all_in_range(&self.figures())
    }
}
