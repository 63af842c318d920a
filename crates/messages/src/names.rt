// What is wrong with a line of names.
use crate::quotes::{Quoted, is_space};
use detfile::names::{HEADINGS, MOST_LINE};
use std::fmt;
use terms::determinant::Determinant;

// Of a file that has no line feed, and so no line of names.
pub(crate) fn write_no_names<W: fmt::Write>(
    f: &mut fmt::Formatter<W>,
    bytes: &[u8],
) -> fmt::Result {
    f.write_str(if bytes.is_empty() {
        "the file is empty; its first line should hold the names"
    } else {
        "the file has no line feed; its first line should hold the names and end with one"
    })
}

pub(crate) fn write_names_fault<W: fmt::Write>(
    f: &mut fmt::Formatter<W>,
    names: &[u8],
) -> fmt::Result {
    let bytes = names.len();
    if bytes > MOST_LINE {
        return write!(
            f,
            "the names line has {bytes} bytes, and at most {MOST_LINE} are allowed"
        );
    }
    let mut fields = names.split(is_space);
    for (i, heading) in HEADINGS.iter().enumerate() {
        let field = fields.next().unwrap_or(b"");
        if field != heading.as_bytes() {
            write_found(f, i + 1, field)?;
            return write!(f, "; expected {heading}");
        }
    }
    write_column_fault(f, names)
}

// The first name that no determinant has, or that stands for the second time.
fn write_column_fault<W: fmt::Write>(f: &mut fmt::Formatter<W>, names: &[u8]) -> fmt::Result {
    for (i, name) in names.split(is_space).enumerate().skip(HEADINGS.len()) {
        if Determinant::try_from(name).is_err() {
            write_found(f, i + 1, name)?;
            return f.write_str(", which is no determinant's name");
        }
        if names.split(is_space).take(i).any(|before| before == name) {
            write_found(f, i + 1, name)?;
            return f.write_str(", which stands there for the second time");
        }
    }
    f.write_str("the names line has no determinant after DAY UNIT INT")
}

// A field of the names line, by its number, and what stands there.
fn write_found<W: fmt::Write>(f: &mut fmt::Formatter<W>, at: usize, field: &[u8]) -> fmt::Result {
    let found = Quoted(field);
    write!(f, "field {at} of the names line is {found}")
}
