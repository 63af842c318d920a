// Posting a file's day to the bytes of a book.
ghost use Rattle.std.specs.Prelude.{◌≡◌, ◌<◌, ◌≤◌, ◌++◌, IfOk, IfErr};
ghost use Rattle.terms.specs.Limits.{last_day};
ghost use Rattle.amounts.specs.Traces.{entities};
ghost use Rattle.books.specs.Calls.{account};
ghost use Rattle.books.specs.Kept.{entry};
ghost use Rattle.accounts.specs.Histories.{History, Accounts, last};
ghost use Rattle.accounts.specs.Bills.{BilledBetween};
ghost use Rattle.jobs.specs.Jobs.{job_watched};
ghost use Rattle.settlement.specs.Tables.{table_of};
ghost use Rattle.settlement.specs.Refusals.{answered, posting_told};
ghost use Rattle.settlement.specs.Postings.{no_bills, job_of, run_of, before_of, bills_of, posted_sound, sound_watched, posted, posted_watched};
ghost use Rattle.settlement.specs.Accounts.{GoesOn, Begins, BillsDifference};

use crate::bills::{Before, Bills};
use crate::reading::Reading;
use crate::refusal::Unposted;
use amounts::row::Amounts;
use books::account::Account;
use books::book::Book;
use imagebook::opening::{Opened, close};
use intervals::warning::Warning;
use jobs::job::work_job;
use jobs::watch::Watch;
use rounding::rules::HalfAway;
use terms::question::ENTITIES;
use terms::source::Source;

// A book's bytes after a posting, and what was billed, or why nothing was.
#[derive(Drop)]
pub struct Posted {
    pub book: Vec<u8>,
    pub answer: Result<Bills, Unposted>,
}

// No amounts for any entity.
fn no_amounts() -> [Amounts; ENTITIES]
    ensures { result ≡ no_bills }
{
    [Amounts::default(); ENTITIES]
}

// What a book tells of a day and an entity.
#[tactic(auto, unfolding(books::specs::Calls::reading))]
fn account_of<B: Book>(book: &B, day: u32, entity: u32) -> Account
    requires { entity < entities }
    ensures { day ≤ last_day → result ≡ account (entry (B.kept book.now) day) entity }
{
    book.read(day, entity).unwrap_or_default()
}

// What a book has of a day.
fn before<B: Book>(book: &B, day: u32) -> Before
    ensures { day ≤ last_day → result ≡ before_of (entry (B.kept book.now) day) }
{
    let mut amounts = no_amounts();
    for (entity, row) in amounts.iter_mut().enumerate() {
        *row = account_of(book, day, entity as u32).amounts;
    }
    let billed = account_of(book, day, 0).billed;
    Before { billed, amounts }
}

// Works the file's day and posts it to a book.
fn post_to<B: Book, S: Source, W: Watch>(
    book: &mut B,
    reading: &Reading<'_, S>,
    warnings: &mut [Warning],
    watch: &mut W,
) -> Result<Bills, Unposted>
    ensures answer { posting_told result ≡ answered (bills_of reading.now.file warnings.old (B.kept book.old)) }
    ensures kept { B.kept book.new ≡ (job_of reading.now.file warnings.old (B.kept book.old)).kept }
    ensures beside { B.beside book.new ≡ B.beside book.old }
    ensures warnings { warnings.new ≡ (job_of reading.now.file warnings.old (B.kept book.old)).warnings }
    ensures watch { W.state watch.new ≡ job_watched W.told (table_of reading.now.file) reading.now.file.day warnings.old (B.kept book.old) (W.state watch.old) }
    ensures unchanged { IfErr result (λ e. B.kept book.new ≡ B.kept book.old) }
    ensures law { (h : History) → Accounts h (B.kept book.old) → Accounts ((job_of reading.now.file warnings.old (B.kept book.old)).calls ++ h) (B.kept book.new) }
    ensures difference { (h : History) → Accounts h (B.kept book.old) → IfOk result (λ b. BilledBetween (last h reading.now.file.day) (run_of reading.now.file) b.rows) }
{
    let day = reading.file.day;
    let before = before(book, day);
    let mut rows = no_amounts();
    match work_job(book, day, HalfAway, reading, warnings, &mut rows, watch) {
        Ok(charged) => Ok(Bills {
            charged,
            before,
            rows,
        }),
        Err(refusal) => Err(Unposted::Job(refusal)),
    }
}

// Posts the file's day to the book that the bytes are, where they are one. The verdict on the file is not looked at here.
fn post_sound<S: Source, W: Watch>(
    book: Vec<u8>,
    reading: &Reading<'_, S>,
    warnings: &mut [Warning],
    watch: &mut W,
) -> Posted
    ensures book { result.book.items ≡ (posted_sound reading.now.file warnings.old book.items).book }
    ensures answer { posting_told result.answer ≡ (posted_sound reading.now.file warnings.old book.items).answer }
    ensures warnings { warnings.new ≡ (posted_sound reading.now.file warnings.old book.items).warnings }
    ensures watch { W.state watch.new ≡ sound_watched reading.now.file warnings.old book.items W.told (W.state watch.old) }
    ensures unchanged { IfErr result.answer (λ e. result.book.items ≡ book.items) }
    ensures law { GoesOn (posted_sound reading.now.file warnings.old book.items).calls book.items result.book.items }
    ensures difference { BillsDifference reading.now.file book.items result.answer }
{
    let Opened { mut book, fault } = Opened::new(book);
    match fault {
        Some(fault) => Posted {
            book: close(book),
            answer: Err(Unposted::Image(fault)),
        },
        None => {
            let answer = post_to(&mut book, reading, warnings, watch);
            Posted {
                book: close(book),
                answer,
            }
        }
    }
}

// Posts the day of a file to a book, which is handed over and handed back as its bytes. The day is reserved, worked by half away from zero and
// posted; the list of warnings needs 256 rows, and the watch is told of each interval that is worked. Refused with 1 to 5 where the file is, with
// the fault where the bytes are no book's, with 8 to 10 where the day cannot be reserved, and with 13 to 16 where an interval is refused. The
// bytes are then as they were.
pub fn post_file<S: Source, W: Watch>(
    book: Vec<u8>,
    reading: &Reading<'_, S>,
    warnings: &mut [Warning],
    watch: &mut W,
) -> Posted
    ensures book { result.book.items ≡ (posted reading.now.file warnings.old book.items).book }
    ensures answer { posting_told result.answer ≡ (posted reading.now.file warnings.old book.items).answer }
    ensures warnings { warnings.new ≡ (posted reading.now.file warnings.old book.items).warnings }
    ensures watch { W.state watch.new ≡ posted_watched reading.now.file warnings.old book.items W.told (W.state watch.old) }
    ensures unchanged { IfErr result.answer (λ e. result.book.items ≡ book.items) }
    ensures law { GoesOn (posted reading.now.file warnings.old book.items).calls book.items result.book.items }
    ensures new_book { Begins (posted reading.now.file warnings.old book.items).calls book.items result.book.items }
    ensures difference { BillsDifference reading.now.file book.items result.answer }
{
    match reading.verdict() {
        Ok(_) => post_sound(book, reading, warnings, watch),
        Err(refusal) => Posted {
            book,
            answer: Err(Unposted::File(refusal)),
        },
    }
}
