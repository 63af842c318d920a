// A job: a day is reserved in a book, worked over a source, and posted.
ghost use Rattle.std.specs.Prelude.{◌≡◌, false, ◌∷◌, ◌++◌, IfOk, IfErr};
ghost use Rattle.terms.specs.Limits.{last_interval};
ghost use Rattle.books.specs.Calls.{lifting};
ghost use Rattle.books.specs.Refusals.{told as book_told};
ghost use Rattle.accounts.specs.Histories.{History, Accounts, withdraws, last};
ghost use Rattle.accounts.specs.Bills.{BilledBetween};
ghost use Rattle.jobs.specs.Days.{run_over};
ghost use Rattle.jobs.specs.Refusals.{told};
ghost use Rattle.jobs.specs.Jobs.{job, job_watched};

use crate::days::run_day;
use crate::refusal::JobRefusal;
use crate::watch::Watch;
use accounts::posting::post;
use accounts::reservation::{reserve, withdraw};
use accounts::slip::Slip;
use amounts::row::Amounts;
use books::book::Book;
use intervals::warning::Warning;
use rounding::rule::Rounding;
use runs::day::RunDay;
use runs::refusal::IntervalRefusal;
use terms::source::Source;

// The day of a slip, as that of a run.
fn run_day_of(slip: &Slip) -> RunDay
    ensures { result.day ≡ slip.now.day }
{
    RunDay::try_from(slip.day()).unwrap()
}

// Withdraws the slip of a job whose day is not worked, and says why it is not.
fn give_up<B: Book>(book: &mut B, slip: Slip, refusal: IntervalRefusal) -> JobRefusal
    ensures same { result ≡ JobRefusal.Interval refusal }
    ensures kept { B.kept book.new ≡ (lifting (B.kept book.old) slip.day false).after }
    ensures beside { B.beside book.new ≡ B.beside book.old }
    ensures law { (h : History) → Accounts h (B.kept book.old) → Accounts (withdraws slip.day (book_told (lifting (B.kept book.old) slip.day false).answer) ∷ h) (B.kept book.new) }
{
    let _ = withdraw(book, slip);
    JobRefusal::Interval(refusal)
}

// Reserves the day, works all its intervals over the source, and posts the sheet; the answer is the sheet's charged shares. Where an interval is
// refused, the reservation is withdrawn.
pub fn work_job<B: Book, R: Rounding + Drop, S: Source, W: Watch>(
    book: &mut B,
    day: u32,
    rule: R,
    source: &S,
    warnings: &mut [Warning],
    bills: &mut [Amounts],
    watch: &mut W,
) -> Result<u32, JobRefusal>
    ensures answer { told result ≡ (job (R.rounded rule) (S.table source.now) day bills.old warnings.old (B.kept book.old)).answer }
    ensures kept { B.kept book.new ≡ (job (R.rounded rule) (S.table source.now) day bills.old warnings.old (B.kept book.old)).kept }
    ensures beside { B.beside book.new ≡ B.beside book.old }
    ensures bills { bills.new ≡ (job (R.rounded rule) (S.table source.now) day bills.old warnings.old (B.kept book.old)).bills }
    ensures warnings { warnings.new ≡ (job (R.rounded rule) (S.table source.now) day bills.old warnings.old (B.kept book.old)).warnings }
    ensures watch { W.state watch.new ≡ job_watched W.told (S.table source.now) day warnings.old (B.kept book.old) (W.state watch.old) }
    ensures unchanged { IfErr result (λ e. B.kept book.new ≡ B.kept book.old) }
    ensures law { (h : History) → Accounts h (B.kept book.old) → Accounts ((job (R.rounded rule) (S.table source.now) day bills.old warnings.old (B.kept book.old)).calls ++ h) (B.kept book.new) }
    ensures difference { (h : History) → Accounts h (B.kept book.old) → IfOk result (λ _. BilledBetween (last h day) (run_over day (R.rounded rule) last_interval (S.table source.now)) bills.new) }
{
    let slip = match reserve(book, day) {
        Ok(slip) => slip,
        Err(refusal) => return Err(JobRefusal::Reservation(refusal)),
    };
    let run = run_day(run_day_of(&slip), rule, source, warnings, watch);
    match run.ended {
        Ok(()) => match post(book, slip, &run.sheet, bills) {
            Ok(charged) => Ok(charged),
            Err(refusal) => Err(JobRefusal::Posting(refusal)),
        },
        Err(refusal) => Err(give_up(book, slip, refusal)),
    }
}
