// What the marks of a day in a book say.
ghost use Rattle.std.specs.Prelude.{◌≡◌};
ghost use Rattle.messages.specs.Marks.{state_of};

// Whether a day is open for changes, and whether it was ever billed.
pub fn state(reserved: bool, billed: bool) -> &'static str
    ensures { result.now ≡ state_of reserved billed }
{
    match (reserved, billed) {
        (true, true) => "reserved and billed",
        (true, false) => "reserved",
        (false, true) => "billed",
        (false, false) => "not held",
    }
}
