// Reserving a day and giving the slip back, over any book.
ghost use Rattle.std.specs.Prelude.{◌≡◌, false, true, ◌∷◌, IfOk};
ghost use Rattle.books.specs.Calls.{reserving, lifting};
ghost use Rattle.books.specs.Refusals.{told};
ghost use Rattle.accounts.specs.Slips.{told as slip_told, given};
ghost use Rattle.accounts.specs.Histories.{History, Accounts, SlipOut, Known, reserves, withdraws};

use crate::slip::Slip;
use books::book::{Book, Lift};
use books::refusal::BookRefusal;

// Reserves a day, and makes the slip for it.
#[tactic(auto, unfolding(books::specs::Calls::reserving))]
fn slip_for<B: Book>(book: &mut B, day: u32) -> Result<Slip, BookRefusal>
    ensures answer { slip_told result ≡ given day (reserving (B.Book.kept book.old) day).answer }
    ensures is_out { IfOk result (λ s. s.is_out ≡ true) }
    ensures kept { B.Book.kept book.new ≡ (reserving (B.Book.kept book.old) day).after }
    ensures beside { B.Book.beside book.new ≡ B.Book.beside book.old }
{
    match book.reserve(day) {
        Ok(()) => Ok(Slip::new(day)),
        Err(refusal) => Err(refusal),
    }
}

// Lifts a day as unbilled.
fn lift_unbilled<B: Book>(book: &mut B, day: u32) -> Result<(), BookRefusal>
    ensures answer { told result ≡ told (lifting (B.Book.kept book.old) day false).answer }
    ensures kept { B.Book.kept book.new ≡ (lifting (B.Book.kept book.old) day false).after }
    ensures beside { B.Book.beside book.new ≡ B.Book.beside book.old }
{
    book.lift(day, Lift::AsUnbilled)
}

// Reserves a day, and gives the slip for it.
pub fn reserve<B: Book>(book: &mut B, day: u32) -> Result<Slip, BookRefusal>
    ensures answer { slip_told result ≡ given day (reserving (B.Book.kept book.old) day).answer }
    ensures is_out { IfOk result (λ s. s.is_out ≡ true) }
    ensures kept { B.Book.kept book.new ≡ (reserving (B.Book.kept book.old) day).after }
    ensures beside { B.Book.beside book.new ≡ B.Book.beside book.old }
    ensures law { (h : History) → Accounts h (B.Book.kept book.old) → Accounts (reserves day (slip_told result) ∷ h) (B.Book.kept book.new) }
    ensures out { (h : History) → Accounts h (B.Book.kept book.old) → IfOk result (λ s. SlipOut (reserves day (slip_told result) ∷ h) s.day) }
{
    slip_for(book, day)
}

// Takes the slip, refused or not, and lifts its reservation as unbilled.
pub fn withdraw<B: Book>(book: &mut B, slip: Slip) -> Result<(), BookRefusal>
    ensures answer { told result ≡ told (lifting (B.Book.kept book.old) slip.day false).answer }
    ensures kept { B.Book.kept book.new ≡ (lifting (B.Book.kept book.old) slip.day false).after }
    ensures beside { B.Book.beside book.new ≡ B.Book.beside book.old }
    ensures law { (h : History) → Accounts h (B.Book.kept book.old) → Accounts (withdraws slip.day (told result) ∷ h) (B.Book.kept book.new) }
    ensures known { (h : History) → Accounts h (B.Book.kept book.old) → SlipOut h slip.day → Known (told result) }
{
    lift_unbilled(book, slip.spend())
}
