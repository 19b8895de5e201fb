// Runs of a leaf that are to be given, each with that leaf, and a batch of each in turn.
ghost use Rattle.std.specs.Prelude.{◌≡◌, length};
ghost use Rattle.rules.specs.Operators.{emit};
ghost use Rattle.operator.specs.Answer.{step_of};
ghost use Rattle.segment_source.specs.Pieces.{pieces_in};

use batches::{Batch, SegmentId};
use jobs::Run;
use operator::Step;

// The leaf, its segment, and its runs: the first `len` count, at most 16.
// kept: an array and how many of it count, since there is no heap.
#[derive(Clone, Copy)]
pub struct Pieces {
    pub leaf: usize,
    pub segment: SegmentId,
    pub runs: [Run; 16],
    pub len: usize,
}

impl Pieces {
    pub fn len(self) -> usize
        ensures { result ≡ length (pieces_in self) }
    {
        self.len.min(16)
    }

    // Run k as a batch, `Final` for the last; `End` behind it.
    pub fn emit(self, k: usize) -> Step
        ensures { step_of result ≡ emit (pieces_in self) k }
    {
        let n = self.len();
        if k >= n {
            return Step::End;
        }
        let run = self.runs[k];
        let batch = Batch::of_run(self.segment, run.start, run.size);
        if k + 1 < n {
            Step::More(batch)
        } else {
            Step::Final(batch)
        }
    }
}
