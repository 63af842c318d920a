// The line of names.
ghost use Rattle.std.specs.Prelude.{◌≡◌, ◌<◌, ◌≤◌, cond, [], length, Some, None, IfOk};
ghost use Rattle.std.specs.Option.{option_map};
ghost use Rattle.detfile.specs.Keys.{values_part};
ghost use Rattle.detfile.specs.Names.{columns_in, headed, names_on, names_of};
ghost use Rattle.detfile.specs.Files.{parts_in, names_cut};

use crate::check::cut_line;
use crate::columns::{Columns, MOST_COLUMNS};
use crate::fields::Fields;
use crate::refusal::FileRefusal;
use figures::cutting::{count_spaces, cut_field};
use terms::determinant::Determinant;

// The most bytes that a line may have before its line feed.
pub const MOST_LINE: usize = 255;

// What the first three fields of a names line are.
pub const HEADINGS: [&str; 3] = ["DAY", "UNIT", "INT"];

// The names of the determinants, in a line that begins with the names of the day, the unit and the interval.
fn cut_heading(line: &[u8]) -> Option<&[u8]>
    ensures { option_map (λ names. names.now) result ≡ cond (headed line.now) (Some (values_part line.now)) None }
{
    let fields = Fields::cut(line);
    let is_heading = fields.day == HEADINGS[0].as_bytes()
        && fields.unit == HEADINGS[1].as_bytes()
        && fields.interval == HEADINGS[2].as_bytes();
    is_heading.then_some(fields.values)
}

// The determinants of `count` names.
fn read_names(names: &[u8], count: usize) -> Option<Columns>
    requires { count ≤ 13 }
    ensures { option_map columns_in result ≡ names_on count [] names.now }
{
    let mut columns = Columns::none();
    let mut rest = names;
    for _ in 0..count {
        let (name, after) = cut_field(rest);
        let determinant = Determinant::try_from(name).ok()?;
        if columns.contains(determinant) {
            return None;
        }
        columns.push(determinant);
        rest = after;
    }
    Some(columns)
}

// The determinants that a line of names has, where it is one.
pub fn columns_of(line: &[u8]) -> Option<Columns>
    ensures { option_map columns_in result ≡ names_of line.now }
{
    if line.len() > MOST_LINE {
        return None;
    }
    let spaces = count_spaces(line);
    if spaces < 3 {
        return None;
    }
    // With more names than determinants one stands twice, or is no determinant's.
    if spaces > MOST_COLUMNS + 2 {
        return None;
    }
    read_names(cut_heading(line)?, spaces - 2)
}

// The columns that the first line of a file names, and the value lines after it.
pub fn cut_names(bytes: &[u8]) -> Result<(Columns, &[u8]), FileRefusal>
    ensures parts { parts_in result ≡ names_cut bytes.now }
    ensures shorter { IfOk result (λ p. length p.1.now < length bytes.now) }
{
    let (names, values) = cut_line(bytes).ok_or(FileRefusal::Names)?;
    let columns = columns_of(names).ok_or(FileRefusal::Names)?;
    Ok((columns, values))
}
