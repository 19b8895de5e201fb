// Whether a run of a split has rows of a node.
ghost use Rattle.std.specs.Prelude.{◌≡◌, ◌+◌};
ghost use Rattle.jobs.specs.Job.{run_of};
ghost use Rattle.reach.specs.Meeting.{meets};

use jobs::Run;

// Whether a run of the root's rows from `base` on meets the rows of a node from `at` on.
pub(crate) fn meets_run(base: u32, at: u64, rows: u32, x: Run) -> bool
    ensures { result ≡ meets base at (at + rows) (run_of x) }
{
    let a = u64::from(base) + u64::from(x.start);
    let first = a.max(at);
    first < a + u64::from(x.size) && first - at < u64::from(rows)
}
