// Why a file is refused, in words for the person who wrote it. The answer and its line are the check's; this only looks again at that
// line to say what was found there.
use crate::names::{write_names_fault, write_no_names};
use crate::values::{write_field_fault, write_shape_fault};
use detfile::check::{MOST_BYTES, cut_line};
use detfile::columns::Columns;
use detfile::lines::{Line, Lines};
use detfile::names::cut_names;
use detfile::refusal::FileRefusal;
use std::fmt;

// The bytes of a file and why they are refused.
#[derive(Clone, Copy, Debug, PartialEq, Eq)]
pub struct Sentence<'a> {
    pub bytes: &'a [u8],
    pub refusal: FileRefusal,
}

impl fmt::Display for Sentence<'_> {
    fn fmt<W: fmt::Write>(&self, f: &mut fmt::Formatter<W>) -> fmt::Result {
        match self.refusal {
            FileRefusal::TooLong => write!(f, "the file has more than {MOST_BYTES} bytes"),
            FileRefusal::Names => match cut_line(self.bytes) {
                Some((names, _)) => write_names_fault(f, names),
                None => write_no_names(f, self.bytes),
            },
            FileRefusal::Shape(number) => match self.line(number) {
                Some(line) => write_shape_fault(f, line, self.columns().as_slice().len() + 3),
                None => f.write_str("the line has no line feed at its end"),
            },
            FileRefusal::Form(number) | FileRefusal::Beyond(number) => {
                let line = self.line(number).unwrap_or(b"");
                write_field_fault(f, self.columns().as_slice(), line)
            }
        }
    }
}

impl<'a> Sentence<'a> {
    // A line by its number, from 1; none where no line feed ends it.
    fn line(&self, number: u32) -> Option<&'a [u8]> {
        match Lines::new(self.bytes).nth(number.saturating_sub(1) as usize)? {
            Line::Ended(line) => Some(line),
            Line::Unended(_) => None,
        }
    }

    fn columns(&self) -> Columns {
        match cut_names(self.bytes) {
            Ok((columns, _)) => columns,
            Err(_) => Columns::none(),
        }
    }
}
