// The bytes that have a meaning of their own in a field.
ghost use Rattle.std.specs.Prelude.{◌≡◌};
ghost use Rattle.figures.specs.Marks.{mark_of, Small};

#[derive(Clone, Copy, Debug, PartialEq, Eq)]
pub enum Mark {
    Star,
    Dash,
    Point,
    // The digit's value.
    Digit(u8),
    Other,
}

impl From<u8> for Mark {
    ghost from_gives = { λ byte mark. mark ≡ mark_of byte };

    fn from(byte: u8) -> Mark
        ensures value { result ≡ mark_of byte }
        ensures small { Small result }
    {
        match byte as char {
            '*' => Mark::Star,
            '-' => Mark::Dash,
            '.' => Mark::Point,
            '0'..='9' => Mark::Digit(byte - b'0'),
            _ => Mark::Other,
        }
    }
}
