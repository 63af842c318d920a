// The rule of the whole table of determinants, and the bounds that the crates above take from here: the check asks for the proofs here.
ghost use Rattle.std.specs.Prelude.{◌≡◌, [], ◌∷◌, map};
ghost use Rattle.terms.specs.declared.determinant.Determinant.{Determinant};
ghost use Rattle.terms.specs.declared.question.TheConstants.{ENTITIES, RESOURCES, LAST_DETERMINANT, LAST_UNIT, LAST_DAY, LAST_INTERVAL, MOST_STORED};
ghost use Rattle.terms.specs.Determinants.{all, number_of, Tabled};
ghost use Rattle.terms.specs.Limits.{last_determinant, last_unit, last_day, last_interval, most_stored};

pub fn table_rule()
    ensures rows { (k : Determinant) → Tabled k }
    ensures numbers { map number_of all ≡ 1 ∷ 2 ∷ 3 ∷ 4 ∷ 5 ∷ 6 ∷ 7 ∷ 8 ∷ 9 ∷ 10 ∷ 11 ∷ 12 ∷ 13 ∷ [] }
{}

// Each number that the code names is the one that the definitions name.
pub fn bounds_rule()
    ensures entities { ENTITIES ≡ 64 }
    ensures resources { RESOURCES ≡ 128 }
    ensures determinant { LAST_DETERMINANT ≡ last_determinant }
    ensures unit { LAST_UNIT ≡ last_unit }
    ensures day { LAST_DAY ≡ last_day }
    ensures interval { LAST_INTERVAL ≡ last_interval }
    ensures stored { MOST_STORED ≡ most_stored }
{}
