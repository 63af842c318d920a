// Cutting bytes at a mark, and lines into fields.
ghost use Rattle.std.specs.Prelude.{◌≡◌, ◌<◌, ◌≤◌, length, IfSome};
ghost use Rattle.std.specs.Option.{option_map};
ghost use Rattle.figures.specs.Cuts.{cut, first_field, past_field, spaces, Placed};

// What stands before the first `mark` and what stands after it.
pub fn cut_at(bytes: &[u8], mark: u8) -> Option<(&[u8], &[u8])>
    ensures parts { option_map (λ p. (p.0.now, p.1.now)) result ≡ cut mark bytes.now }
    ensures shorter { IfSome result (λ p. length p.1.now < length bytes.now) }
{
    let at = bytes.iter().position(|b| *b == mark)?;
    Some((&bytes[..at], &bytes[at + 1..]))
}

// The first field of a line, or of what is left of it, and what is left after that field and its space.
pub fn cut_field(line: &[u8]) -> (&[u8], &[u8])
    ensures field { result.0.now ≡ first_field line.now }
    ensures left { result.1.now ≡ past_field line.now }
    ensures place { Placed line.now result.0.now result.1.now }
{
    cut_at(line, b' ').unwrap_or((line, &[]))
}

// How many spaces a line has: one less than its fields.
#[tactic(auto, using(crate::proofs::CutSteps::few_spaces))]
pub fn count_spaces(line: &[u8]) -> usize
    ensures value { result ≡ spaces line.now }
    ensures bound { result ≤ length line.now }
{
    line.iter().map(|b| usize::from(*b == b' ')).sum()
}
