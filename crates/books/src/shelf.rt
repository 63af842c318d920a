// A book on any store: the places in use stand in front, their days ascending, and the others are free.
ghost use Rattle.std.specs.Prelude.{◌≡◌, ℕ, ◌≤◌, true, take, length};
ghost use Rattle.books.specs.Places.{free, at};
ghost use Rattle.books.specs.Tests.{rises, all_sound};

use crate::store::Store;

pub struct Shelf<S: Store> {
    pub(crate) store: S,
    pub(crate) used: usize,
    ghost within: { used ≤ length (S.Store.slots store) },
    ghost free: { (i : ℕ) → used ≤ i → at (S.Store.slots store) i ≡ free },
    ghost rising: { rises (take used (S.Store.slots store)) ≡ true },
    ghost each: { all_sound (take used (S.Store.slots store)) ≡ true },
}
