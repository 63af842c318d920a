// What a field of a line says.
ghost use Rattle.std.specs.Prelude.{◌≡◌};
ghost use Rattle.figures.specs.Cuts.{first_field, past_field, Placed};
ghost use Rattle.figures.specs.Tokens.{seen, token_of, spelt};

use crate::cutting::cut_field;
use crate::marks::Mark;

// Nothing given, every interval, or the part of the line that should be a number.
#[derive(Clone, Copy)]
pub enum Token<'a> {
    Nothing,
    Every,
    Number(&'a [u8]),
}

// A dash, a star, or else the whole field.
impl<'a> From<&'a [u8]> for Token<'a> {
    ghost from_gives = { λ field token. seen token ≡ token_of field.now };

    fn from(field: &'a [u8]) -> Token<'a> {
        match field {
            [byte] => match Mark::from(*byte) {
                Mark::Dash => Token::Nothing,
                Mark::Star => Token::Every,
                _ => Token::Number(field),
            },
            _ => Token::Number(field),
        }
    }
}

// What the first field of a line, or of what is left of it, says, and what is left after it. The token's bytes stand at the front of
// the line, and what is left begins one byte past them.
pub fn cut_token(line: &[u8]) -> (Token<'_>, &[u8])
    ensures token { seen result.0 ≡ token_of (first_field line.now) }
    ensures left { result.1.now ≡ past_field line.now }
    ensures place { Placed line.now (spelt (seen result.0)) result.1.now }
{
    let (field, after) = cut_field(line);
    (Token::from(field), after)
}
