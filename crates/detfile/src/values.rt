// The value lines.
ghost use Rattle.std.specs.Prelude.{◌≡◌};
ghost use Rattle.figures.specs.Tokens.{seen};
ghost use Rattle.detfile.specs.Names.{columns_in};
ghost use Rattle.detfile.specs.Values.{given_by, values_fault, fields_fault, shaped, line_judged};

use crate::columns::Columns;
use crate::fields::Fields;
use crate::key::Key;
use crate::names::MOST_LINE;
use crate::refusal::FileRefusal;
use figures::cutting::count_spaces;
use figures::numbers::{Fault, stored_number};
use figures::tokens::{Token, cut_token};
use terms::determinant::Determinant;

// What a determinant's field gives: nothing, or a stored number.
pub fn given_value(token: Token<'_>, determinant: Determinant) -> Result<Option<i64>, Fault>
    ensures { result ≡ given_by determinant (seen token.entry) }
{
    match token {
        Token::Nothing => Ok(None),
        Token::Every => Err(Fault::Form),
        Token::Number(part) => stored_number(part, determinant).map(Some),
    }
}

// Checks the fields of the determinants, from left to right.
pub fn check_values(columns: &[Determinant], fields: &[u8]) -> Result<(), Fault>
    ensures { result ≡ values_fault columns.now fields.now }
{
    let mut rest = fields;
    for d in columns {
        let (token, after) = cut_token(rest);
        given_value(token, *d)?;
        rest = after;
    }
    Ok(())
}

// Checks the fields of a value line, from left to right.
fn check_fields(columns: &[Determinant], line: &[u8]) -> Result<(), Fault>
    ensures { result ≡ fields_fault columns.now line.now }
{
    let fields = Fields::cut(line);
    Key::try_from(fields)?;
    check_values(columns, fields.values)
}

// Whether a value line is at most as long as a line may be, and has as many fields as the names line.
pub fn is_shaped(columns: &[Determinant], line: &[u8]) -> bool
    ensures { result ≡ shaped columns.now line.now }
{
    line.len() <= MOST_LINE && count_spaces(line) == columns.len() + 2
}

// Checks a value line, which is line `number` of the file.
pub(crate) fn check_line(columns: &Columns, line: &[u8], number: u32) -> Result<(), FileRefusal>
    ensures { result ≡ line_judged (columns_in columns.now) number line.now }
{
    let columns = columns.as_slice();
    if !is_shaped(columns, line) {
        return Err(FileRefusal::Shape(number));
    }
    check_fields(columns, line).map_err(|fault| FileRefusal::at(fault, number))
}
