// Looking at places that stand as they were left.
ghost use Rattle.std.specs.Prelude.{◌≡◌, ℕ, suc, ◌<◌, ◌≤◌, length, IfOk};
ghost use Rattle.std.specs.List.{list_all};
ghost use Rattle.books.specs.Places.{at, is_taken};
ghost use Rattle.books.specs.Surveys.{Shaped, is_none, is_bare, first_out, taken_fault, place_fault, step, surveyed};

use crate::flaw::{Flaw, Wrong};
use crate::place::{Place, is_in_range};
use crate::store::Store;
use amounts::row::Amounts;

// How many places in front hold days, and the least day that the next may hold.
#[derive(Clone, Copy)]
pub(crate) struct Front {
    pub(crate) used: usize,
    pub(crate) least: u32,
}

// Whether a place has a mark, and so holds a day.
fn is_taken(place: &Place) -> bool
    ensures { result ≡ is_taken place.now }
{
    place.reserved || place.billed
}

fn is_none(amounts: &Amounts) -> bool
    ensures { result ≡ is_none amounts.now }
{
    amounts.reactive == 0 && amounts.held == 0 && amounts.load == 0
}

fn all_none(amounts: &[Amounts]) -> bool
    ensures { result ≡ list_all is_none amounts.now }
{
    amounts.iter().all(|a| is_none(a))
}

// Whether a place has neither day nor amounts.
fn is_bare(place: &Place) -> bool
    ensures { result ≡ is_bare place.now }
{
    place.day == 0 && all_none(&place.amounts)
}

// The first entity whose amounts a book may not keep.
fn first_out(amounts: &[Amounts]) -> Option<usize>
    ensures { result ≡ first_out 0 amounts.now }
{
    for (entity, amounts) in amounts.iter().enumerate() {
        if !is_in_range(*amounts) {
            return Some(entity);
        }
    }
    None
}

fn day_after(day: u16) -> u32
    ensures { result ≡ suc day }
{
    u32::from(day) + 1
}

impl Front {
    // What is wrong with a marked place.
    fn taken_fault(self, index: usize, place: &Place) -> Option<Wrong>
        ensures { result ≡ taken_fault self index place.now }
    {
        if self.used != index {
            return Some(Wrong::AfterFree);
        }
        if u32::from(place.day) < self.least {
            return Some(Wrong::NotRising);
        }
        first_out(&place.amounts).map(Wrong::Amounts)
    }

    fn place_fault(self, index: usize, place: &Place) -> Option<Wrong>
        ensures { result ≡ place_fault self index place.now }
    {
        if is_taken(place) {
            return self.taken_fault(index, place);
        }
        if is_bare(place) {
            return None;
        }
        Some(Wrong::NotFree)
    }

    // The front after one more place.
    #[tactic(auto, unfolding(crate::specs::Surveys::step))]
    fn step(self, index: usize, place: &Place) -> Result<Front, Flaw>
        requires within { self.used ≤ index }
        requires few { index < 32 }
        ensures { result ≡ step self index place.now }
    {
        if let Some(wrong) = self.place_fault(index, place) {
            return Err(Flaw { index, wrong });
        }
        if is_taken(place) {
            let used = self.used + 1;
            let least = day_after(place.day);
            return Ok(Front { used, least });
        }
        Ok(self)
    }
}

// How many days the places of a store hold, or what is wrong with them first.
pub(crate) fn survey<S: Store>(store: &S) -> Result<usize, Flaw>
    ensures value { result ≡ surveyed (S.Store.slots store.now) }
    ensures shaped { IfOk result (λ u. (q : ℕ) → q < length (S.Store.slots store.now) → Shaped (at (S.Store.slots store.now) q)) }
{
    let mut front = Front { used: 0, least: 0 };
    for index in 0..store.count() {
        front = front.step(index, &store.place(index))?;
    }
    Ok(front.used)
}
