// `settle post BOOK DAY FILE [--fill] [--direct]`
use crate::beside::Beside;
use crate::console::Console;
use crate::held_book::HeldBook;
use crate::options::{Command, Options, day_and_options};
use crate::teller::Teller;
use books::refusal::BookRefusal;
use daytable::room::Room;
use imagebook::fault::ImageFault;
use intervals::warning::Warning;
use jobs::refusal::JobRefusal;
use messages::broken::MOST_BYTES;
use messages::printable::Printable;
use messages::{broken, stopped, table, unposted};
use runs::refusal::IntervalRefusal;
use runs::working::WARNING_ROWS;
use settlement::bills::Bills;
use settlement::dayfile::DayFile;
use settlement::posting::{Posted, post_file};
use settlement::reading::Reading;
use settlement::refusal::Unposted;
use std::fs::File;
use std::io;
use std::rt::{Clock, Files};
use terms::source::Source;

const EXAMPLE: &str = "settle post book.bin 7 day.txt";

// What is posted where.
#[derive(Clone, Copy)]
struct Posting<'a> {
    book: &'a str,
    day: u16,
    file: &'a str,
    options: Options,
}

// Whether the day was posted before with the same amounts, as where a call that was cut off at its last line is made again.
fn are_repeated(bills: &Bills) -> bool {
    bills.before.billed && !bills.rows.iter().any(|row| table::is_shown(*row))
}

impl<R: Files<File = File> + Clock + Print + Eprint + AllocGlobal> Console<'_, R> {
    // A day worked from a file and posted to a book; false where something is refused, the run stops or the command is wrong, and then the
    // book is as it was, and where the posted book's folder cannot be synced.
    pub(crate) fn post(
        &self,
        book: &str,
        day: &str,
        file: &str,
        words: &[&str],
    ) -> anyhow::Result<bool> {
        let (number, read) = match day_and_options(Command::Post, day, words, EXAMPLE) {
            Ok(read) => read,
            Err(fault) => return self.refuse(fault),
        };
        let options = read.options;
        match u16::try_from(number) {
            Ok(day) => self.post_path(Posting {
                book,
                day,
                file,
                options,
            }),
            Err(_) => self.say_day_refused(day, BookRefusal::OutOfRange.number()),
        }
    }

    fn post_path(&self, posting: Posting<'_>) -> anyhow::Result<bool> {
        let Some(bytes) = self.load(posting.file)? else {
            return Ok(false);
        };
        let file = DayFile {
            bytes: &bytes,
            day: u32::from(posting.day),
            fill: posting.options.fill,
        };
        if posting.options.direct {
            self.post_reading(posting, &Reading::direct(file))
        } else {
            let room = Room::new(self.rt.alloc())?;
            self.post_reading(posting, &Reading::tabled(room, file))
        }
    }

    // False where the file is refused, and then the book is not opened.
    fn post_reading<S: Source>(
        &self,
        posting: Posting<'_>,
        reading: &Reading<'_, S>,
    ) -> anyhow::Result<bool> {
        let verdict = reading.verdict();
        self.say_verdict(posting.file, reading.file.bytes, verdict)?;
        if verdict.is_err() {
            return Ok(false);
        }
        self.post_held(posting, reading)
    }

    // No other call posts to the book from before it is read to the end of the command.
    fn post_held<S: Source>(
        &self,
        posting: Posting<'_>,
        reading: &Reading<'_, S>,
    ) -> anyhow::Result<bool> {
        let path = Printable(posting.book);
        let book = match HeldBook::hold(self.rt, posting.book, posting.file) {
            Ok(book) => book,
            Err(fault) => return self.refuse(format_args!("{path}: {fault}")),
        };
        let image = match book.read(self.rt, MOST_BYTES) {
            Ok(image) => image,
            Err(e) => return self.refuse(format_args!("{path}: cannot be read: {e}")),
        };
        self.warn_empty(posting.book, &image)?;
        let mut rows = vec![in self.rt.alloc(); Warning::default(); WARNING_ROWS]?;
        let mut teller = Teller::new(*self);
        let posted = post_file(image, reading, rows.as_mut_slice(), &mut teller);
        teller.end()?;
        match posted.answer {
            Ok(bills) => self.save(posting, &book, posted.book.as_slice(), &bills),
            Err(refusal) => {
                self.say_unposted(posting, reading, &posted, rows.as_slice(), refusal)?;
                Ok(false)
            }
        }
    }

    // Writes the book after the posting, and prints the bills; true where the new bytes are the book's for good. Until they have the book's
    // name, whatever fails takes them away again; from then on nothing is taken away.
    fn save(
        &self,
        posting: Posting<'_>,
        book: &HeldBook,
        image: &[u8],
        bills: &Bills,
    ) -> anyhow::Result<bool> {
        let path = Printable(posting.book);
        let beside = match book.write_beside(self.rt, image) {
            Ok(beside) => beside,
            Err(fault) => return self.refuse(format_args!("{path}: {fault}")),
        };
        let placed = self.place(posting, book, &beside, bills);
        if !matches!(placed, Ok(true)) {
            let _ = beside.discard(self.rt);
            return placed;
        }
        if let Err(fault) = book.sync_folder() {
            return self.refuse(format_args!("{path}: {fault}"));
        }
        let day = posting.day;
        println!(self.rt; "{path}: day {day} posted")?;
        Ok(true)
    }

    // Prints the bills, and then gives the new bytes the book's name; true where they have it.
    fn place(
        &self,
        posting: Posting<'_>,
        book: &HeldBook,
        beside: &Beside,
        bills: &Bills,
    ) -> anyhow::Result<bool> {
        self.say_bills(bills)?;
        if let Err(fault) = book.replace(self.rt, beside) {
            let path = Printable(posting.book);
            return self.refuse(format_args!("{path}: {fault}; the bills above are not posted"));
        }
        Ok(true)
    }

    fn say_broken(&self, path: &str, bytes: &[u8], fault: ImageFault) -> io::Result<()> {
        let why = broken::Sentence { bytes, fault };
        let path = Printable(path);
        println!(self.rt; "{path}: no book: {why}")
    }

    // Why the day is not posted; of a file that is refused, the verdict is said already.
    fn say_unposted<S: Source>(
        &self,
        posting: Posting<'_>,
        reading: &Reading<'_, S>,
        posted: &Posted,
        rows: &[Warning],
        refusal: Unposted,
    ) -> io::Result<()> {
        match refusal {
            Unposted::File(_) => Ok(()),
            Unposted::Image(fault) => self.say_broken(posting.book, posted.book.as_slice(), fault),
            Unposted::Job(refusal) => self.say_no_job(posting, reading, rows, refusal),
        }
    }

    // Why the job came to nothing, and that the book has not changed.
    fn say_no_job<S: Source>(
        &self,
        posting: Posting<'_>,
        source: &Reading<'_, S>,
        rows: &[Warning],
        refusal: JobRefusal,
    ) -> io::Result<()> {
        let day = posting.day;
        let book = Printable(posting.book);
        match refusal {
            JobRefusal::Interval(halt @ IntervalRefusal::Halted(stop)) => {
                self.say_warnings(rows, stop.warnings)?;
                let why = stopped::Sentence { source, stop };
                self.say_stopped(stop.slot.interval, halt, why)?;
                println!(self.rt; "{book}: day {day} withdrawn; the book is as it was")
            }
            _ => {
                let answer = refusal.number();
                let why = unposted::Sentence(refusal);
                println!(self.rt; "day {day}: refused, answer {answer}: {why}")?;
                println!(self.rt; "{book}: day {day} not posted; the book is as it was")
            }
        }
    }

    // What was posted of the day before, and what each entity is billed now.
    fn say_bills(&self, bills: &Bills) -> io::Result<()> {
        let before = &bills.before;
        let charged = bills.charged;
        if before.billed {
            println!(self.rt; "posted before:")?;
            self.say_table(&before.amounts, table::total(&before.amounts))?;
        } else {
            println!(self.rt; "posted before: nothing")?;
        }
        println!(self.rt; "charged shares: {charged}")?;
        if are_repeated(bills) {
            println!(self.rt; "the book had just these amounts already; every bill is zero")?;
        }
        println!(self.rt; "bills:")?;
        self.say_table(&bills.rows, table::total(&bills.rows))
    }
}
