// Why a day is not posted, in words. An interval that stops the run has its own sentence.
use accounts::refusal::PostRefusal;
use books::refusal::BookRefusal;
use jobs::refusal::JobRefusal;
use std::fmt;
use terms::question::{ENTITIES, LAST_DAY, LAST_INTERVAL};

#[derive(Clone, Copy)]
pub struct Sentence(pub JobRefusal);

impl fmt::Display for Sentence {
    fn fmt<W: fmt::Write>(&self, f: &mut fmt::Formatter<W>) -> fmt::Result {
        match self.0 {
            JobRefusal::Reservation(refusal) => write_refused(f, refusal),
            JobRefusal::Interval(_) => f.write_str("an interval of the day is not worked"),
            JobRefusal::Posting(refusal) => write_unposted(f, refusal),
        }
    }
}

fn write_refused<W: fmt::Write>(f: &mut fmt::Formatter<W>, refusal: BookRefusal) -> fmt::Result {
    match refusal {
        BookRefusal::OutOfRange => write!(f, "a day is a number from 0 to {LAST_DAY}"),
        BookRefusal::Reserved => f.write_str("the book has the day reserved already"),
        BookRefusal::Full => {
            f.write_str("the book does not hold the day, and each of its places is taken")
        }
        BookRefusal::NotReserved => f.write_str("the book has no reservation of the day"),
    }
}

fn write_unposted<W: fmt::Write>(f: &mut fmt::Formatter<W>, refusal: PostRefusal) -> fmt::Result {
    match refusal {
        PostRefusal::NotReserved => f.write_str("the book has no reservation of the day"),
        PostRefusal::OtherDay => f.write_str("the sheet is of another day"),
        PostRefusal::TooShort => {
            write!(
                f,
                "fewer than {LAST_INTERVAL} intervals of the day are worked"
            )
        }
        PostRefusal::FewRows => write!(f, "the list of bills has fewer than {ENTITIES} rows"),
    }
}
