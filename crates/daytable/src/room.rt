// The memory of a day table.
ghost use Rattle.std.specs.Prelude.{◌≡◌, ℕ, length, IfOk};
ghost use Rattle.terms.specs.declared.answer.Answer.TheVariants.{NoCut};
ghost use Rattle.daytable.specs.Cuts.{cut_count, Roomy, cuts_say};

use crate::cut::Cut;
use crate::place::CUTS;
use crate::unbuilt::Unbuilt;
use std::alloc::Global;

// The most bytes that the cuts may take.
const MOST_MEMORY: usize = 2 << 20;

const _: () = prove!(size_of::<Cut>() * CUTS <= MOST_MEMORY);

// Room for the table of one day, whatever the file: a cut for each determinant and unit, in which nothing stands yet.
#[derive(Drop)]
pub struct Room {
    pub(crate) cuts: Vec<Cut>,
    ghost long: { length cuts.items ≡ cut_count },
    ghost blank: { (d u i : ℕ) → Roomy d u i → cuts_say cuts.items d u i ≡ NoCut },
}

impl Room {
    // Takes the memory, once. The one error is that there is none.
    pub fn new(alloc: Global) -> Result<Room, Unbuilt>
        ensures blank { IfOk result (λ r. (d u i : ℕ) → Roomy d u i → cuts_say r.cuts.items d u i ≡ NoCut) }
    {
        let cuts = vec![in alloc; Cut::Nothing; CUTS]?;
        Ok(Room { cuts })
    }
}
