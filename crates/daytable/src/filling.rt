// What the lines of a file give a day.
ghost use Rattle.std.specs.Prelude.{◌≡◌, ℕ, ◌+◌, ◌<◌, ◌≤◌, cond, ◌&&◌, ◌==◌, length, Ok, unsigned_abs, IfOk};
ghost use Rattle.terms.specs.Limits.{last_unit, most_stored};
ghost use Rattle.terms.specs.Answers.{later};
ghost use Rattle.terms.specs.Decisions.{decide};
ghost use Rattle.terms.specs.Determinants.{number_of};
ghost use Rattle.terms.specs.declared.answer.Answer.TheVariants.{NoCut};
ghost use Rattle.figures.specs.Tokens.{seen};
ghost use Rattle.detfile.specs.Files.{judged};
ghost use Rattle.detfile.specs.Keys.{then, covers_of};
ghost use Rattle.detfile.specs.Lines.{lines, line_counted, lines_judged};
ghost use Rattle.detfile.specs.Names.{columns_in};
ghost use Rattle.detfile.specs.Values.{given_by, values_fault, fields_fault, line_judged};
ghost use Rattle.detfile.specs.Walks.{file_line};
ghost use Rattle.filesource.specs.Asks.{value_says, column_says, bytes_say, line_says, asked};
ghost use Rattle.daytable.specs.Cuts.{cut_count, InDay, Roomy, cuts_say, tabled};
ghost use Rattle.daytable.specs.Columns.{Apart};

use crate::cut::Cut;
use crate::place::place_of;
use detfile::check::MOST_BYTES;
use detfile::columns::Columns;
use detfile::fields::Fields;
use detfile::key::Key;
use detfile::lines::{Line, Lines};
use detfile::names::cut_names;
use detfile::refusal::FileRefusal;
use detfile::values::{check_values, given_value, is_shaped};
use figures::numbers::Fault;
use figures::tokens::{Token, cut_token};
use terms::determinant::Determinant;

// A stored number in half its room.
fn narrowed(number: i64) -> i32
    requires { unsigned_abs number ≤ most_stored }
    ensures { result ≡ number }
{
    number as i32
}

// Checks a determinant's field and takes in what it gives.
fn put_field(
    cuts: &mut [Cut],
    key: Key,
    determinant: Determinant,
    token: Token<'_>,
) -> Result<(), Fault>
    requires long { length cuts.old ≡ cut_count }
    requires unit { key.unit ≤ last_unit }
    requires interval { InDay key.interval }
    ensures long { length cuts.new ≡ cut_count }
    ensures verdict { result ≡ then (given_by determinant (seen token.entry)) (λ _. Ok tt) }
    ensures says { (d u i : ℕ) → Roomy d u i → cuts_say cuts.new d u i ≡ later (cuts_say cuts.old d u i) (cond (key.unit == u && number_of determinant == d) (value_says (covers_of key.interval i) (given_by determinant (seen token.entry))) NoCut) }
{
    if let Some(number) = given_value(token, determinant)? {
        let at = place_of(determinant.into(), key.unit);
        cuts[at].put(key.interval, narrowed(number));
    }
    Ok(())
}

// Checks the fields of the determinants and takes in what they give, from left to right.
fn put_values(
    cuts: &mut [Cut],
    key: Key,
    columns: &[Determinant],
    fields: &[u8],
) -> Result<(), Fault>
    requires long { length cuts.old ≡ cut_count }
    requires unit { key.unit ≤ last_unit }
    requires interval { InDay key.interval }
    requires apart { Apart columns.now }
    ensures long { length cuts.new ≡ cut_count }
    ensures verdict { result ≡ values_fault columns.now fields.now }
    ensures says { IfOk result (λ _. (d u i : ℕ) → Roomy d u i → cuts_say cuts.new d u i ≡ later (cuts_say cuts.old d u i) (cond (key.unit == u) (column_says columns.now d (covers_of key.interval i) fields.now) NoCut)) }
{
    let mut rest = fields;
    for d in columns {
        let (token, after) = cut_token(rest);
        put_field(cuts, key, *d, token)?;
        rest = after;
    }
    Ok(())
}

// Checks the fields of a value line, from left to right, and takes in what they give the day.
fn put_fields(cuts: &mut [Cut], columns: &[Determinant], day: u32, line: &[u8]) -> Result<(), Fault>
    requires long { length cuts.old ≡ cut_count }
    requires apart { Apart columns.now }
    ensures long { length cuts.new ≡ cut_count }
    ensures verdict { result ≡ fields_fault columns.now line.now }
    ensures says { IfOk result (λ _. (d u i : ℕ) → Roomy d u i → cuts_say cuts.new d u i ≡ later (cuts_say cuts.old d u i) (bytes_say columns.now d u day i line.now)) }
{
    let fields = Fields::cut(line);
    let key = Key::try_from(fields)?;
    if key.day == day {
        put_values(cuts, key, columns, fields.values)
    } else {
        check_values(columns, fields.values)
    }
}

// Checks a value line, which is line `number` of the file, and takes in what it gives the day.
fn put_line(
    cuts: &mut [Cut],
    columns: &Columns,
    day: u32,
    line: &[u8],
    number: u32,
) -> Result<(), FileRefusal>
    requires long { length cuts.old ≡ cut_count }
    requires apart { Apart (columns_in columns.now) }
    ensures long { length cuts.new ≡ cut_count }
    ensures verdict { result ≡ line_judged (columns_in columns.now) number line.now }
    ensures says { IfOk result (λ _. (d u i : ℕ) → Roomy d u i → cuts_say cuts.new d u i ≡ later (cuts_say cuts.old d u i) (bytes_say (columns_in columns.now) d u day i line.now)) }
{
    let columns = columns.as_slice();
    if !is_shaped(columns, line) {
        return Err(FileRefusal::Shape(number));
    }
    put_fields(cuts, columns, day, line).map_err(|fault| FileRefusal::at(fault, number))
}

// Takes in a value line that has `count` others before it, and counts it.
fn count_line(
    cuts: &mut [Cut],
    columns: &Columns,
    day: u32,
    line: Line<'_>,
    count: u32,
) -> Result<u32, FileRefusal>
    requires long { length cuts.old ≡ cut_count }
    requires apart { Apart (columns_in columns.now) }
    requires few { count < 16777216 }
    ensures long { length cuts.new ≡ cut_count }
    ensures verdict { result ≡ line_counted (columns_in columns.now) count (file_line line.entry) }
    ensures says { IfOk result (λ _. (d u i : ℕ) → Roomy d u i → cuts_say cuts.new d u i ≡ later (cuts_say cuts.old d u i) (line_says (columns_in columns.now) d u day i (file_line line.entry))) }
{
    let Line::Ended(bytes) = line else {
        return Err(FileRefusal::Shape(count + 2));
    };
    put_line(cuts, columns, day, bytes, count + 2)?;
    Ok(count + 1)
}

// Checks and counts the value lines, and takes in what they give the day, each line once.
fn put_lines(
    cuts: &mut [Cut],
    columns: &Columns,
    day: u32,
    values: &[u8],
) -> Result<u32, FileRefusal>
    requires long { length cuts.old ≡ cut_count }
    requires apart { Apart (columns_in columns.now) }
    requires few { length values.now ≤ 16777216 }
    ensures long { length cuts.new ≡ cut_count }
    ensures verdict { result ≡ lines_judged (columns_in columns.now) 0 (lines values.now) }
    ensures says { IfOk result (λ _. (d u i : ℕ) → Roomy d u i → cuts_say cuts.new d u i ≡ decide (line_says (columns_in columns.now) d u day i) (cuts_say cuts.old d u i) (lines values.now)) }
{
    let mut count = 0;
    for line in Lines::new(values) {
        count = count_line(cuts, columns, day, line, count)?;
    }
    Ok(count)
}

// Checks a file and takes in what it says of the day, up to the line at fault where there is one.
fn put_file(cuts: &mut [Cut], day: u32, bytes: &[u8]) -> Result<u32, FileRefusal>
    requires long { length cuts.old ≡ cut_count }
    requires blank { (d u i : ℕ) → Roomy d u i → cuts_say cuts.old d u i ≡ NoCut }
    ensures long { length cuts.new ≡ cut_count }
    ensures verdict { result ≡ judged bytes.now }
    ensures says { IfOk result (λ _. (d u y i : ℕ) → tabled day cuts.new d u y i ≡ cond (y == day) (asked bytes.now d u y i) NoCut) }
{
    if bytes.len() > MOST_BYTES {
        return Err(FileRefusal::TooLong);
    }
    let (columns, values) = cut_names(bytes)?;
    put_lines(cuts, &columns, day, values)
}

// Checks a file and takes in what it says of the day; where it is refused, that is nothing.
pub(crate) fn fill(cuts: &mut [Cut], day: u32, bytes: &[u8]) -> Result<u32, FileRefusal>
    requires long { length cuts.old ≡ cut_count }
    requires blank { (d u i : ℕ) → Roomy d u i → cuts_say cuts.old d u i ≡ NoCut }
    ensures long { length cuts.new ≡ cut_count }
    ensures verdict { result ≡ judged bytes.now }
    ensures says { (d u y i : ℕ) → tabled day cuts.new d u y i ≡ cond (y == day) (asked bytes.now d u y i) NoCut }
{
    let verdict = put_file(cuts, day, bytes);
    if verdict.is_err() {
        cuts.fill(Cut::Nothing);
    }
    verdict
}
