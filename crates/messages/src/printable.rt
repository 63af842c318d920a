// A name or a word of the caller's in what is printed.
use crate::quotes::Quoted;
use std::fmt;

// The text as it stands; or, where it has a control character, as a field of a file is printed, between quotes and with none.
#[derive(Clone, Copy)]
pub struct Printable<'a>(pub &'a str);

impl fmt::Display for Printable<'_> {
    fn fmt<W: fmt::Write>(&self, f: &mut fmt::Formatter<W>) -> fmt::Result {
        if self.0.chars().any(|c| c.is_control()) {
            let quoted = Quoted(self.0.as_bytes());
            write!(f, "{quoted}")
        } else {
            f.write_str(self.0)
        }
    }
}
