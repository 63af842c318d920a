// What holds of the bytes of every place: the check asks for the proofs here.
ghost use Rattle.std.specs.Prelude.{ℕ, List};
ghost use Rattle.books.specs.declared.place.Place.{Place};
ghost use Rattle.image.specs.Laws.{IsPlace, IsBytes, Written, Read};

// What was written is read back, and what was read is written back.
pub fn place_law()
    ensures written { (x : Place) → IsPlace x → Written x }
    ensures read { (bs : List ℕ) → IsBytes bs → Read bs }
{}
