// What holds of every book: the check asks for the proofs here.
ghost use Rattle.std.specs.Prelude.{◌≡◌, ℕ, ◌≤◌, Bool, Ok, List, length};
ghost use Rattle.amounts.specs.declared.row.Amounts.{Amounts};
ghost use Rattle.books.specs.declared.place.Place.{Place};
ghost use Rattle.books.specs.Kept.{Kept};
ghost use Rattle.books.specs.Calls.{reserving, replacing, lifting};
ghost use Rattle.books.specs.Stores.{kept_of, laid};
ghost use Rattle.books.specs.Surveys.{Memory, surveyed};
ghost use Rattle.books.specs.Laws.{Sound, Reserves, Reads, Replaces, Lifts};

// What each call does, in words, of whatever a book keeps.
pub fn call_laws()
    ensures reserves { (k : Kept) (d : ℕ) → Sound k → Reserves k d }
    ensures reads { (k : Kept) (d q : ℕ) → Sound k → Reads k d q }
    ensures replaces { (k : Kept) (d q : ℕ) (a : Amounts) → Sound k → Replaces k d q a }
    ensures lifts { (k : Kept) (d : ℕ) (as_billed : Bool) → Sound k → Lifts k d as_billed }
{}

// No call makes of what a book keeps what it cannot keep.
pub fn sound_laws()
    ensures reserving { (k : Kept) (d : ℕ) → Sound k → Sound (reserving k d).after }
    ensures replacing { (k : Kept) (d q : ℕ) (a : Amounts) → Sound k → Sound (replacing k d q a).after }
    ensures lifting { (k : Kept) (d : ℕ) (as_billed : Bool) → Sound k → Sound (lifting k d as_billed).after }
{}

// The survey passes the places of every book, as the days that it holds, and no others.
pub fn survey_law()
    ensures passes { (k : Kept) → Sound k → surveyed (laid k) ≡ Ok (length k.held) }
    ensures sound { (xs : List Place) (u : ℕ) → Memory xs → length xs ≤ 32 → surveyed xs ≡ Ok u → Sound (kept_of xs u) }
    ensures places { (xs : List Place) (u : ℕ) → Memory xs → surveyed xs ≡ Ok u → laid (kept_of xs u) ≡ xs }
{}
