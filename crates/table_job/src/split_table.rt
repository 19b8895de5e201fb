// The table of splits.
ghost use Rattle.std.specs.Prelude.{◌≡◌, ◌≤◌};
ghost use Rattle.rules.specs.Plan as plan;
ghost use Rattle.jobs.specs.Job.{split_of};
ghost use Rattle.tables.specs.View.{view};

use crate::{counts, quick, split};
use jobs::{Run, Split};
use tables::StateBytes;

pub(crate) const SPLITS: usize = 1135;

// The split at a place of the job; past the last, one without runs.
pub fn load_split(s: &StateBytes, i: usize) -> Split
    ensures result_value { split_of result ≡ plan.split_of (view s.now).job i }
    ensures count_bound { result.count ≤ 16 }
{
    if counts::split_count(s) <= i {
        return Split {
            start: 0,
            end: 0,
            count: 0,
            runs: [Run { start: 0, size: 0 }; 16],
        };
    }
    split::get_split(quick::split_record(s, i))
}
