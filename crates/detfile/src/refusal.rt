// Why a file is refused, and at which line.
ghost use Rattle.std.specs.Prelude.{◌≡◌};
ghost use Rattle.detfile.specs.Refusals.{number_of, line_of, fault_at};

use figures::numbers::Fault;

// Each case but the first two has the number of its line; the names line is line 1.
#[derive(Clone, Copy, Debug, PartialEq, Eq)]
pub enum FileRefusal {
    // The file has too many bytes.
    TooLong,
    // There is no names line, or it is not one.
    Names,
    // A value line is too long or not ended, or its number of fields is not that of the names line.
    Shape(u32),
    // A field is not written as its place asks, or DAY, UNIT or INT is out of range.
    Form(u32),
    // A stored number lies beyond the stored range.
    Beyond(u32),
}

impl FileRefusal {
    // The number of the answer.
    pub fn number(self) -> u32
        ensures { result ≡ number_of self }
    {
        match self {
            FileRefusal::TooLong => 1,
            FileRefusal::Names => 2,
            FileRefusal::Shape(_) => 3,
            FileRefusal::Form(_) => 4,
            FileRefusal::Beyond(_) => 5,
        }
    }

    // The line at fault; 0 where the whole file is.
    pub fn line(self) -> u32
        ensures { result ≡ line_of self }
    {
        match self {
            FileRefusal::TooLong => 0,
            FileRefusal::Names => 1,
            FileRefusal::Shape(line) | FileRefusal::Form(line) | FileRefusal::Beyond(line) => line,
        }
    }

    // The refusal for a field at fault in a line.
    pub fn at(fault: Fault, line: u32) -> FileRefusal
        ensures { result ≡ fault_at fault line }
    {
        match fault {
            Fault::Form => FileRefusal::Form(line),
            Fault::Beyond => FileRefusal::Beyond(line),
        }
    }
}
