// What is wrong with a value line.
use crate::quotes::{Quoted, is_space};
use detfile::fields::Fields;
use detfile::key::{Interval, ranged_number};
use detfile::names::{HEADINGS, MOST_LINE};
use detfile::values::given_value;
use figures::cutting::count_spaces;
use figures::numbers::Fault;
use figures::tokens::Token;
use std::fmt;
use terms::determinant::Determinant;
use terms::question::{LAST_DAY, LAST_INTERVAL, LAST_UNIT, MOST_STORED};

// Of a line with another number of fields than `wanted`, or too many bytes.
pub(crate) fn write_shape_fault<W: fmt::Write>(
    f: &mut fmt::Formatter<W>,
    line: &[u8],
    wanted: usize,
) -> fmt::Result {
    let bytes = line.len();
    if bytes > MOST_LINE {
        return write!(
            f,
            "the line has {bytes} bytes, and at most {MOST_LINE} are allowed"
        );
    }
    let fields = count_spaces(line).saturating_add(1);
    write!(
        f,
        "fields found: {fields}, expected: {wanted}, as in the names line; every single space separates two fields"
    )
}

// Of the leftmost field at fault.
pub(crate) fn write_field_fault<W: fmt::Write>(
    f: &mut fmt::Formatter<W>,
    columns: &[Determinant],
    line: &[u8],
) -> fmt::Result {
    let Fields {
        day,
        unit,
        interval,
        values,
    } = Fields::cut(line);
    if ranged_number(day, 0, LAST_DAY).is_err() {
        write_found(f, 1, HEADINGS[0], day)?;
        write!(f, "expected one to five digits, from 0 to {LAST_DAY}")
    } else if ranged_number(unit, 0, LAST_UNIT).is_err() {
        write_found(f, 2, HEADINGS[1], unit)?;
        write!(f, "expected one to five digits, from 0 to {LAST_UNIT}")
    } else if Interval::try_from(Token::from(interval)).is_err() {
        write_found(f, 3, HEADINGS[2], interval)?;
        write!(
            f,
            "expected * or one to five digits, from 1 to {LAST_INTERVAL}"
        )
    } else {
        write_value_fault(f, columns, values)
    }
}

// A field of a value line, by its number and what it is called, and what stands there.
fn write_found<W: fmt::Write, N: fmt::Display + Copy>(
    f: &mut fmt::Formatter<W>,
    at: usize,
    name: N,
    field: &[u8],
) -> fmt::Result {
    let found = Quoted(field);
    write!(f, "field {at}, {name}, is {found}; ")
}

fn write_value_fault<W: fmt::Write>(
    f: &mut fmt::Formatter<W>,
    columns: &[Determinant],
    values: &[u8],
) -> fmt::Result {
    let fields = values.split(is_space);
    for (i, (determinant, field)) in columns.iter().zip(fields).enumerate() {
        if let Err(fault) = given_value(Token::from(field), *determinant) {
            write_found(f, i + 4, *determinant, field)?;
            return write_expected(f, fault, determinant.decimals());
        }
    }
    f.write_str("a field is not written as its place asks")
}

fn write_expected<W: fmt::Write>(
    f: &mut fmt::Formatter<W>,
    fault: Fault,
    decimals: usize,
) -> fmt::Result {
    match (fault, decimals) {
        (Fault::Beyond, _) => write!(
            f,
            "stored with {decimals} decimals it is not from -{MOST_STORED} to {MOST_STORED}"
        ),
        (Fault::Form, 0) => {
            f.write_str("expected - or a whole number: a minus or none, and one to ten digits")
        }
        (Fault::Form, _) => write!(
            f,
            "expected - or a figure: a minus or none, one to ten digits, and nothing or a point with one to {decimals} digits"
        ),
    }
}
