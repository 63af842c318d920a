// What holds of runs and jobs over sources that agree about a day, and of lists of postings: the check asks for the proofs here.
ghost use Rattle.std.specs.Prelude.{ℕ, List};
ghost use Rattle.terms.specs.Sources.{Table};
ghost use Rattle.settlement.specs.SameDays.{SameDay, SameRuns, SameWalks, SameJobs, SameWatched};
ghost use Rattle.settlement.specs.Accounts.{Begins};
ghost use Rattle.settlement.specs.Lists.{Filing, bytes_after, calls_of};
ghost use Rattle.intervals.specs.declared.warning.Warning.{Warning};
ghost use Rattle.settlement.specs.declared.dayfile.DayFile.{DayFile};
ghost use Rattle.settlement.specs.Words.{AreBytes, PostsFile};

use jobs::watch::Watch;

// Over two sources that answer alike about a day, whatever they answer about others, a run of it, a job for it and what a watch is told of either
// come to the same.
pub fn day_law<W: Watch>()
    ensures runs { (d : ℕ) (t u : Table) → SameDay d t u → SameRuns d t u }
    ensures walks { (d : ℕ) (t u : Table) → SameDay d t u → SameWalks d t u }
    ensures jobs { (d : ℕ) (t u : Table) → SameDay d t u → SameJobs d t u }
    ensures watch { (d : ℕ) (t u : Table) → SameDay d t u → SameWatched d t u W.told }
{}

// Whatever files are posted to the bytes of a new book, one after the other, each accepted or refused: the law of accounts holds between all that
// was called on the book and what its bytes then mean. And what the posting of each file comes to, in words: when it is posted, what it bills, and
// what the new bytes mean.
pub fn postings_law()
    ensures lists { (book : List ℕ) (ps : List Filing) → Begins (calls_of book ps) book (bytes_after book ps) }
    ensures file { (f : DayFile) (ws : List Warning) (book : List ℕ) → AreBytes book → PostsFile f ws book }
{}
