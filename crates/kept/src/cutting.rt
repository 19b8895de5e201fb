// A run of the root's rows, cut to a node's rows.
ghost use Rattle.std.specs.Prelude.{◌≡◌, ◌+◌};
ghost use Rattle.rules.specs.Plan as plan;
ghost use Rattle.jobs.specs.Job.{run_of};
ghost use Rattle.kept.specs.Kept.{listed};

use jobs::Run;

// A run of the root's rows from `base` on, cut to the rows of a node from `at` on; none where they do not meet.
pub fn cut(base: u32, at: u64, rows: u32, r: Run) -> Option<Run>
    ensures { listed result ≡ plan.cut base at (at + rows) (run_of r) }
{
    let a = u64::from(base) + u64::from(r.start);
    let e = a + u64::from(r.size);
    let x = a.max(at);
    let from = x - at;
    if e <= x || u64::from(rows) <= from {
        return None;
    }
    let left = u64::from(rows) - from;
    Some(Run {
        start: from as u32,
        size: (e - x).min(left) as u32,
    })
}
