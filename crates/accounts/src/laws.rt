// What holds of every book's accounts: the check asks for the proofs here.
ghost use Rattle.std.specs.Prelude.{ℕ, ◌≤◌, List, [], length};
ghost use Rattle.terms.specs.Limits.{last_day};
ghost use Rattle.amounts.specs.declared.row.Amounts.{Amounts};
ghost use Rattle.amounts.specs.Traces.{entities};
ghost use Rattle.runs.specs.Sheets.{Said};
ghost use Rattle.books.specs.Kept.{Kept};
ghost use Rattle.books.specs.Lists.{new_kept};
ghost use Rattle.accounts.specs.Histories.{Accounts};
ghost use Rattle.accounts.specs.Calls.{Call, history_of, kept_after, FirstBills};
ghost use Rattle.accounts.specs.Words.{Posts};

// Nothing was called on a new book, and its accounts hold. Whatever is called on it, they hold after each call: reservations, withdrawals, and
// postings of sheets of any run, worked by any calls for its intervals, accepted or refused, over whatever sources, under any rule that keeps its
// law. A day that is written out, posted to a new book, bills its Resource's owner both payments and two entities their charges.
pub fn accounts_law()
    ensures new_book { (places : ℕ) → Accounts [] (new_kept places) }
    ensures all_calls { (places : ℕ) (calls : List Call) → Accounts (history_of (new_kept places) calls) (kept_after (new_kept places) calls) }
    ensures example { (places y : ℕ) (bills : List Amounts) → 1 ≤ places → y ≤ last_day → entities ≤ length bills → FirstBills places y bills }
{}

// What a posting does, in words, whatever the book keeps.
pub fn post_law()
    ensures { (k : Kept) (d : ℕ) (s : Said) (bills : List Amounts) → Posts k d s bills }
{}
