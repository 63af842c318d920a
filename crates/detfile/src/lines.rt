// The lines of a file.
ghost use Rattle.std.specs.Prelude.{◌≡◌};
ghost use Rattle.std.specs.Iterator.{YieldsFirstBy, item_count};
ghost use Rattle.detfile.specs.Lines.{lines};
ghost use Rattle.detfile.specs.Walks.{file_line, lines_left};

use crate::check::cut_line;

// A line without its line feed, which only the last may lack.
#[derive(Clone, Copy, Debug, PartialEq, Eq)]
pub enum Line<'a> {
    Ended(&'a [u8]),
    Unended(&'a [u8]),
}

// The lines of some bytes, from the first on; nothing after the last line feed is no line.
#[derive(Drop)]
pub struct Lines<'a> {
    rest: &'a [u8],
}

impl<'a> Lines<'a> {
    pub fn new(bytes: &'a [u8]) -> Lines<'a>
        ensures { lines_left result ≡ lines bytes.now }
    {
        Lines { rest: bytes }
    }
}

impl<'a> Iterator for Lines<'a> {
    type Item = Line<'a>;

    ghost next_gives = { YieldsFirstBy file_line lines_left };

    ghost remaining = { item_count lines_left };

    fn next(&mut self) -> Option<Line<'a>> {
        if self.rest.is_empty() {
            return None;
        }
        match cut_line(self.rest) {
            Some((line, after)) => {
                self.rest = after;
                Some(Line::Ended(line))
            }
            None => {
                let line = self.rest;
                self.rest = &[];
                Some(Line::Unended(line))
            }
        }
    }
}
