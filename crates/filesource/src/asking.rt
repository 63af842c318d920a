// Questions to a determinant file.
ghost use Rattle.std.specs.Prelude.{◌≡◌, true};
ghost use Rattle.terms.specs.Limits.{inside};
ghost use Rattle.terms.specs.Decisions.{decide, Decision};
ghost use Rattle.terms.specs.declared.answer.Answer.TheVariants.{NoCut};
ghost use Rattle.figures.specs.Tokens.{seen};
ghost use Rattle.detfile.specs.Lines.{lines};
ghost use Rattle.detfile.specs.Names.{columns_in};
ghost use Rattle.detfile.specs.Values.{given_by};
ghost use Rattle.filesource.specs.Parts.{columns, value_lines};
ghost use Rattle.filesource.specs.Asks.{value_says, line_says, asked};
ghost use Rattle.filesource.specs.AsksKept.{asked_laws};

use crate::source::{Content, FileSource};
use detfile::fields::Fields;
use detfile::key::Key;
use detfile::lines::{Line, Lines};
use detfile::values::given_value;
use figures::tokens::{Token, cut_token};
use terms::answer::Answer;
use terms::determinant::Determinant;
use terms::question::Question;
use terms::source::Source;

// What a determinant's field says, in a line that covers the interval or does not.
fn field_answer(token: Token<'_>, determinant: Determinant, covers: bool) -> Answer
    ensures { result ≡ value_says covers (given_by determinant (seen token.entry)) }
{
    match given_value(token, determinant) {
        Ok(Some(n)) if covers => Answer::Figure(n),
        Ok(Some(_)) => Answer::Null,
        Ok(None) | Err(_) => Answer::NoCut,
    }
}

impl Content<'_> {
    // What the value lines answer: each line by its fields, until the determinant's column is found.
    fn ask_lines(&self, question: Question) -> Answer
        ensures { result ≡ decide (line_says (columns_in self.now.columns) question.determinant question.unit question.day question.interval) NoCut (lines self.now.values.now) }
    {
        let columns = self.columns.as_slice();
        let mut answer = Answer::NoCut;
        'line: for line in Lines::new(self.values) {
            let Line::Ended(line) = line else {
                continue 'line;
            };
            let fields = Fields::cut(line);
            let Ok(key) = Key::try_from(fields) else {
                continue 'line;
            };
            if key.day != question.day || key.unit != question.unit {
                continue 'line;
            }
            let covers = key.interval.covers(question.interval);
            let mut rest = fields.values;
            for d in columns {
                let (token, after) = cut_token(rest);
                if u32::from(*d) == question.determinant {
                    answer = answer.after(field_answer(token, *d, covers));
                    continue 'line;
                }
                rest = after;
            }
        }
        answer
    }
}

impl<'a> Source for FileSource<'a> {
    ghost table = { λ s d u y i. asked s.bytes.now d u y i };

    ghost laws = { asked_laws (λ s. s.bytes.now) };

    fn ask(&self, question: Question) -> Answer
        ensures table { result ≡ asked self.now.bytes.now question.determinant question.unit question.day question.interval }
        ensures law { inside question.determinant question.unit question.day question.interval ≡ true → Decision (line_says (columns self.now.bytes.now) question.determinant question.unit question.day question.interval) (value_lines self.now.bytes.now) result }
    {
        if !question.is_inside() {
            return Answer::NoCut;
        }
        match self.content {
            Ok(content) => content.ask_lines(question),
            Err(_) => Answer::NoCut,
        }
    }
}
