// The day of a file posted to the bytes of a book: a first run, what is refused between, and a correction.
use super::meters::*;
use super::smallday::BLANK;
use super::watches::Counter;
use daytable::room::Room;
use imagebook::fault::ImageFault;
use imagebook::opening::{Opened, close};
use settlement::dayfile::DayFile;
use settlement::posting::post_file;
use settlement::reading::Reading;
use settlement::refusal::Unposted;
use std::process::Abort;
use std::test::Fail;
use terms::source::Source;

// The first meters of the other trials, as a file; the same with a dearer price; and with a price in interval 50 that is out of range.
const FIRST_FILE: &[u8] =
    b"DAY UNIT INT OWNER VSSVARIOL URLLAG URLLEAD RTVAR HSL LSL RTSPP RTHSLAIEC RTVSSAIEC RTMG LRS VSSVARPR\n9 0 * 0 120 100 -100 28 400 100 36 30 28 80 0.5 1\n9 63 * - - - - - - - - - - - 0.5 -\n";

const DEARER_FILE: &[u8] =
    b"DAY UNIT INT OWNER VSSVARIOL URLLAG URLLEAD RTVAR HSL LSL RTSPP RTHSLAIEC RTVSSAIEC RTMG LRS VSSVARPR\n9 0 * 0 120 100 -100 28 400 100 36 30 28 80 0.5 1.10\n9 63 * - - - - - - - - - - - 0.5 -\n";

const STOPPED_FILE: &[u8] =
    b"DAY UNIT INT OWNER VSSVARIOL URLLAG URLLEAD RTVAR HSL LSL RTSPP RTHSLAIEC RTVSSAIEC RTMG LRS VSSVARPR\n9 0 * 0 120 100 -100 28 400 100 36 30 28 80 0.5 1\n9 63 * - - - - - - - - - - - 0.5 -\n9 0 50 - - - - - - - - - - - - -0.01\n";

// The first meters, where URLLAG is given for interval 1 alone. Filled, the owner is paid 300 for reactive power there and 2,800 elsewhere.
const GAP_FILE: &[u8] =
    b"DAY UNIT INT OWNER VSSVARIOL URLLAG URLLEAD RTVAR HSL LSL RTSPP RTHSLAIEC RTVSSAIEC RTMG LRS VSSVARPR\n9 0 * 0 120 - -100 28 400 100 36 30 28 80 0.5 1\n9 0 1 - - 100 - - - - - - - - - -\n9 63 * - - - - - - - - - - - 0.5 -\n";

// These totals less those of the dearer price.
const GAP_BILLS: [Row; 2] = [(0, [-234_620, 0, 117_310]), (63, [0, 0, 117_310])];

// The number of a refusal; 0 of an image that is no book's, which has none.
fn number_of(refusal: Unposted) -> u32 {
    match refusal {
        Unposted::File(refusal) => refusal.number(),
        Unposted::Image(_) => 0,
        Unposted::Job(refusal) => refusal.number(),
    }
}

// A file, its day, the fill, and the rows of the list of warnings; how many intervals are told, what is billed, or the number of the
// answer, and what the book had of the day before.
type Step = (
    &'static [u8],
    u32,
    bool,
    usize,
    u32,
    Result<&'static [Row], u32>,
    (bool, &'static [Row]),
);

// One after the other, on a book of one place.
const STEPS: [Step; 9] = [
    (b"x", 9, false, 256, 0, Err(2), (false, &[])),
    (FIRST_FILE, 65_536, false, 256, 0, Err(8), (false, &[])),
    (FIRST_FILE, 9, false, 255, 0, Err(13), (false, &[])),
    (
        FIRST_FILE,
        9,
        false,
        256,
        96,
        Ok(&FIRST_TOTALS),
        (false, &[]),
    ),
    (
        STOPPED_FILE,
        9,
        false,
        256,
        49,
        Err(15),
        (true, &FIRST_TOTALS),
    ),
    (
        DEARER_FILE,
        9,
        true,
        256,
        96,
        Ok(&DEARER_BILLS),
        (true, &FIRST_TOTALS),
    ),
    (FIRST_FILE, 10, false, 256, 0, Err(10), (false, &[])),
    (GAP_FILE, 9, false, 256, 1, Err(14), (true, &DEARER_TOTALS)),
    (
        GAP_FILE,
        9,
        true,
        256,
        96,
        Ok(&GAP_BILLS),
        (true, &DEARER_TOTALS),
    ),
];

// Posts a file to a book's bytes, and looks at all that comes of it but the warning rows, which the trials of intervals and days look at.
fn check_step<R: Abort + AllocGlobal, S: Source>(
    rt: &R,
    book: Vec<u8>,
    reading: &Reading<'_, S>,
    step: &Step,
) -> Result<Vec<u8>, Fail> {
    let (_, _, _, rows, last, wanted, (billed, before)) = *step;
    let old = book.as_slice().to_vec(rt.alloc())?;
    let mut warnings = [BLANK; 256];
    let lent = warnings.get_mut(..rows).unwrap_or(&mut []);
    let mut counter = Counter::new();
    let posted = post_file(book, reading, lent, &mut counter);
    counter.check(rt, &[last]);
    match (posted.answer, wanted) {
        (Ok(bills), Ok(rows)) => {
            assert_eq!(rt; (bills.charged, bills.before.billed), (192, billed));
            check_bills(rt, &bills.before.amounts, before);
            check_bills(rt, &bills.rows, rows);
        }
        (answer, wanted) => {
            assert_eq!(rt; answer.err().map(number_of), wanted.err());
            assert_eq!(rt; posted.book.as_slice(), old.as_slice());
        }
    }
    Ok(posted.book)
}

// The steps, each over the file itself or over the table of its day.
fn check_steps<R: Abort + AllocGlobal>(rt: &R, direct: bool) -> Result<Vec<u8>, Fail> {
    let mut book = vec![in rt.alloc(); 0_u8; 1544]?;
    for step in &STEPS {
        let (bytes, day, fill, ..) = *step;
        let file = DayFile { bytes, day, fill };
        book = if direct {
            check_step(rt, book, &Reading::direct(file), step)?
        } else {
            check_step(
                rt,
                book,
                &Reading::tabled(Room::new(rt.alloc())?, file),
                step,
            )?
        };
    }
    Ok(book)
}

#[test]
fn posted_files(rt: HostRuntime) -> Result<(), Fail> {
    let direct = check_steps(&rt, true)?;
    let tabled = check_steps(&rt, false)?;
    assert_eq!(rt; direct.as_slice(), tabled.as_slice());
    let Opened { book, fault } = Opened::new(tabled);
    assert_eq!(rt; fault, None);
    let totals = [(0, [-266_300, -96_000, 181_150]), (63, [0, 0, 181_150])];
    check_day(&rt, &book, 9, (false, true), &totals);
    assert_eq!(rt; close(book).len(), 1544);
    Ok(())
}

// Bytes that are no book's stay.
#[test]
fn posted_to_no_book(rt: HostRuntime) -> Result<(), Fail> {
    let file = DayFile {
        bytes: FIRST_FILE,
        day: 9,
        fill: false,
    };
    let posted = post_file(
        vec![in rt.alloc(); 3_u8; 1543]?,
        &Reading::direct(file),
        &mut [BLANK; 256],
        &mut Counter::new(),
    );
    assert_eq!(rt; posted.answer, Err(Unposted::Image(ImageFault::Ragged)));
    assert_eq!(rt; posted.book.as_slice(), [3; 1543].as_slice());
    Ok(())
}
