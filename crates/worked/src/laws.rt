// The check asks here for the proof that the formulas give what every row expects.
ghost use Rattle.std.specs.List.{AllByRecursion};
ghost use Rattle.worked.specs.Worked.{table, Works};

pub fn table_holds()
    ensures { AllByRecursion Works table }
{}
