// Why a call is refused: a case for each number of docs/REFUSALS.md that is still returned. The last three are about a run, by its index in its split
// as written.
ghost use Rattle.std.specs.Prelude.{◌≡◌};
ghost use Rattle.numbers.specs.Opt.{option_of};
ghost use Rattle.jobs.specs.Refusal.{number_of, index_of};

#[derive(Clone, Copy, PartialEq, Eq)]
pub enum Refusal {
    StateTooShort,
    Malformed,
    PastLimit,
    NotATree,
    Unequal,
    TwoRowCounts,
    TooManyRows,
    BadRange,
    NotInFlight,
    WrongRows,
    OutOfOrder,
    Stuck,
    Failed,
    EmptyRun(u8),
    RunBeforeEnd(u8),
    RunPastSplit(u8),
}

impl Refusal {
    // Its number in the table.
    pub fn number(self) -> u8
        ensures { result ≡ number_of self }
    {
        match self {
            Refusal::StateTooShort => 1,
            Refusal::Malformed => 2,
            Refusal::PastLimit => 3,
            Refusal::NotATree => 4,
            Refusal::Unequal => 5,
            Refusal::TwoRowCounts => 6,
            Refusal::TooManyRows => 7,
            Refusal::BadRange => 8,
            Refusal::NotInFlight => 10,
            Refusal::WrongRows => 11,
            Refusal::OutOfOrder => 12,
            Refusal::Stuck => 13,
            Refusal::Failed => 14,
            Refusal::EmptyRun(_) => 17,
            Refusal::RunBeforeEnd(_) => 18,
            Refusal::RunPastSplit(_) => 19,
        }
    }

    // The index of the run at fault, where one is.
    pub fn run(self) -> Option<u8>
        ensures { option_of result ≡ index_of self }
    {
        match self {
            Refusal::EmptyRun(i) | Refusal::RunBeforeEnd(i) | Refusal::RunPastSplit(i) => Some(i),
            _ => None,
        }
    }
}
