// The stage that cuts a claimed segment's batch to its kept runs.
ghost use Rattle.segment_source.specs.Cut.{Cuts};

use crate::pieces::Pieces;
use operator::Step;

// The run that comes next.
#[derive(Clone, Copy)]
pub struct Cut {
    pub at: u8,
}

impl Cut {
    // The next run of the batch. Behind the last nothing changes.
    pub fn next(self, pieces: Pieces) -> (Step, Cut)
        ensures { Cuts self pieces result.0 result.1 }
    {
        let k = usize::from(self.at);
        let step = pieces.emit(k);
        if k >= pieces.len() {
            return (step, self);
        }
        (step, Cut { at: self.at + 1 })
    }
}
