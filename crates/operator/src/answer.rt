// The answers of a source or a stage.
ghost use Rattle.std.specs.Prelude.{◌≡◌, ◌≤◌};
ghost use Rattle.operator.specs.Answer.{step_of, width_of};

use batches::Batch;

// What a source waits for: bytes that it asked for, or an inlet.
#[derive(Clone, Copy)]
pub enum SourceBlocked {
    Io,
    Inlet(u8),
}

// Whether a source can go on.
#[derive(Clone, Copy)]
pub enum SourceReady {
    Ready,
    Blocked(SourceBlocked),
}

// Nothing more, a batch with more behind it, or the last batch for now.
#[derive(Clone, Copy)]
pub enum Step {
    End,
    More(Batch),
    Final(Batch),
}

impl Step {
    // The same step, whose batch says no more columns than it has places for.
    pub fn trimmed(self) -> Step
        ensures result_value { step_of result ≡ step_of self }
        ensures width_bound { width_of result ≤ 4 }
    {
        match self {
            Step::End => Step::End,
            Step::More(batch) => Step::More(batch.trimmed()),
            Step::Final(batch) => Step::Final(batch.trimmed()),
        }
    }
}
