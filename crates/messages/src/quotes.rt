// Bytes of a file as a person can read them.
use std::fmt;

// A field between quotes; a quote and a backslash after a backslash, and each byte that is no printable ASCII character as \xNN.
#[derive(Clone, Copy)]
pub(crate) struct Quoted<'a>(pub(crate) &'a [u8]);

impl fmt::Display for Quoted<'_> {
    fn fmt<W: fmt::Write>(&self, f: &mut fmt::Formatter<W>) -> fmt::Result {
        f.write_char('"')?;
        for b in self.0 {
            match *b {
                b'"' => f.write_str("\\\"")?,
                b'\\' => f.write_str("\\\\")?,
                32..=126 => f.write_char(*b as char)?,
                _ => write!(f, "\\x{b:02x}")?,
            }
        }
        f.write_char('"')
    }
}

// What separates two fields.
pub(crate) fn is_space(byte: &u8) -> bool {
    *byte == b' '
}
