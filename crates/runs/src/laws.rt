// What holds of every run: the check asks for the proofs here.
ghost use Rattle.std.specs.Prelude.{◌≡◌, ℕ, ◌≤◌, false, List, [], length, ℤ, None};
ghost use Rattle.terms.specs.Limits.{last_day, last_interval};
ghost use Rattle.terms.specs.Sources.{Table, SourceLaws};
ghost use Rattle.amounts.specs.Tables.{Complete};
ghost use Rattle.amounts.specs.Traces.{entities, resources};
ghost use Rattle.intervals.specs.Courses.{course};
ghost use Rattle.runs.specs.declared.work.Work.{Work};
ghost use Rattle.runs.specs.Works.{WorkedBy, traced, FaultlessOver, CompleteOver};
ghost use Rattle.runs.specs.Example.{example, Day, DayRun};
ghost use Rattle.runs.specs.Calls.{IntervalCall, progress, CalledOn, CalledMore};

// What the calls on a run come to, call by call, is what the contracts of opening a run and of working an interval say: the answer, whether the
// run has stopped and the law of the run are those of `Run::interval`, whatever was called before.
pub fn calls_law()
    ensures opened { (y : ℕ) (rounded : ℤ → ℕ → ℤ) (w : Work) → WorkedBy (traced y rounded []) w → CalledOn y rounded [] false w }
    ensures called { (y : ℕ) (rounded : ℤ → ℕ → ℤ) (cs : List IntervalCall) (c : IntervalCall) → CalledMore y rounded cs c }
    ensures few { (y : ℕ) (cs : List IntervalCall) → length (progress y cs).tables ≤ last_interval }
    ensures faultless { (y : ℕ) (cs : List IntervalCall) → FaultlessOver y (progress y cs).tables }
{}

// Where nothing stops the asking of an interval, all that it needs is there and in its range; and so over a run.
pub fn complete_law()
    ensures interval { (t : Table) (y i : ℕ) → (course t y i).fault ≡ None → Complete t y i entities resources }
    ensures run { (y : ℕ) (ts : List Table) → FaultlessOver y ts → CompleteOver y ts }
{}

// A day that is written out, under a rule that keeps its law: its table is one that a source may have, every interval of it is accepted, a Resource
// is paid both ways, and two entities are charged.
pub fn example_law()
    ensures source { SourceLaws (λ (s : Unit {0}). example) }
    ensures interval { (y i : ℕ) → y ≤ last_day → 1 ≤ i → i ≤ last_interval → Day y i }
    ensures run { (y : ℕ) → y ≤ last_day → DayRun y }
{}
