// What was done with an input, and the exit status after it.
ghost use Rattle.std.specs.Prelude.{◌≡◌};

use dump_lines::Verdict;

/// What was done with an input.
#[derive(Debug, Drop, PartialEq)]
pub enum Outcome {
    /// What the options want was written. The verdict says whether some of it is rejected.
    Written(Verdict),
    /// Nothing was written, for this reason: the bytes that the options want are not there.
    Lacking(String),
    /// It cannot be read, and nothing was written.
    Unread,
}

impl Outcome {
    ghost use Rattle.dump_inputs.specs.Outcomes.{status_of};

    /// The exit status that the input asks for.
    pub fn status(&self) -> u8
        ensures { result ≡ status_of self.now }
    {
        match self {
            Outcome::Written(Verdict::AllRead) => 0,
            Outcome::Written(Verdict::Refused) | Outcome::Lacking(_) => 1,
            Outcome::Unread => 2,
        }
    }
}
