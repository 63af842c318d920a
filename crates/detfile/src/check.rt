// The check of a whole file.
ghost use Rattle.std.specs.Prelude.{◌≡◌, ℕ, ◌<◌, ◌≤◌, List, length, IfSome};
ghost use Rattle.std.specs.Option.{option_map};
ghost use Rattle.figures.specs.Cuts.{cut};
ghost use Rattle.detfile.specs.Refusals.{told};
ghost use Rattle.detfile.specs.Lines.{lines, line_counted, lines_judged};
ghost use Rattle.detfile.specs.Walks.{file_line};
ghost use Rattle.detfile.specs.Names.{columns_in};
ghost use Rattle.detfile.specs.Files.{judged, checked};
ghost use Rattle.detfile.specs.Verdicts.{Lined, Verdict};

use crate::columns::Columns;
use crate::lines::{Line, Lines};
use crate::names::cut_names;
use crate::refusal::FileRefusal;
use crate::values::check_line;
use figures::cutting::cut_at;

// The most bytes that a file may have.
pub const MOST_BYTES: usize = 16_777_216;

// The first line of what is left of a file, and what is left after it and its line feed.
pub fn cut_line(rest: &[u8]) -> Option<(&[u8], &[u8])>
    ensures parts { option_map (λ p. (p.0.now, p.1.now)) result ≡ cut 10 rest.now }
    ensures shorter { IfSome result (λ p. length p.1.now < length rest.now) }
{
    cut_at(rest, b'\n')
}

// Checks a value line that has `count` others before it, and counts it.
fn count_line(columns: &Columns, count: u32, line: Line<'_>) -> Result<u32, FileRefusal>
    requires { count < 16777216 }
    ensures { result ≡ line_counted (columns_in columns.now) count (file_line line.entry) }
{
    match line {
        Line::Ended(bytes) => check_line(columns, bytes, count + 2).map(|()| count + 1),
        Line::Unended(_) => Err(FileRefusal::Shape(count + 2)),
    }
}

// Checks the value lines, and counts them.
fn check_lines(columns: &Columns, values: &[u8]) -> Result<u32, FileRefusal>
    requires { length values.now ≤ 16777216 }
    ensures { result ≡ lines_judged (columns_in columns.now) 0 (lines values.now) }
{
    Lines::new(values).try_fold(0, |count, line| count_line(columns, count, line))
}

// The length, then the names line, then the value lines.
fn judge(bytes: &[u8]) -> Result<u32, FileRefusal>
    ensures { result ≡ judged bytes.now }
{
    if bytes.len() > MOST_BYTES {
        return Err(FileRefusal::TooLong);
    }
    let (columns, values) = cut_names(bytes)?;
    check_lines(&columns, values)
}

// The number of value lines of a file, or why and at which line it is refused. The law says so in words: a file is accepted where its
// names line is one and every value line is sound, and refused at the first line that is at fault.
pub fn check_file(bytes: &[u8]) -> Result<u32, FileRefusal>
    ensures answer { told result ≡ checked bytes.now }
    ensures value { result ≡ judged bytes.now }
    ensures law { Verdict bytes.now result }
{
    judge(bytes)
}

// A file is cut into its lines in the one way there is: no line holds a line feed, all but the last are ended by one, and together they are
// the file.
pub fn lines_rejoin()
    ensures { (bs : List ℕ) → Lined bs }
{}
