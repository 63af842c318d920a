// Why a file is not posted, or not worked.
use detfile::refusal::FileRefusal;
use imagebook::fault::ImageFault;
use jobs::refusal::JobRefusal;
use runs::refusal::DayRefusal;

// The first that holds, in this order.
#[derive(Clone, Copy, Debug, PartialEq, Eq)]
pub enum Unposted {
    // The determinant file is refused.
    File(FileRefusal),
    // The bytes of the book are no book's.
    Image(ImageFault),
    // The day is not reserved, not worked to its end, or not posted.
    Job(JobRefusal),
}

// The first that holds, in this order.
#[derive(Clone, Copy, Debug, PartialEq, Eq)]
pub enum Unworked {
    // The determinant file is refused.
    File(FileRefusal),
    // There is no such day.
    Day(DayRefusal),
}
