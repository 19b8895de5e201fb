// The runs of a split within a node, in the node's rows.
ghost use Rattle.std.specs.Prelude.{◌≡◌, ◌+◌, ◌<◌, ◌∷◌, [], ◌++◌};
ghost use mathlib.Core.List.{flat_map};
ghost use Rattle.rules.specs.Plan as plan;
ghost use Rattle.jobs.specs.Job.{run_of, split_of};
ghost use Rattle.kept.specs.Kept.{runs_of, Sized};

use crate::{Kept, cutting};
use jobs::{Run, Split};

// No runs.
fn none() -> Kept
    ensures sized { Sized result }
    ensures count_value { result.count ≡ 0 }
{
    Kept {
        count: 0,
        runs: [Run { start: 0, size: 0 }; 16],
    }
}

// One run more.
fn push(k: &mut Kept, x: Run)
    requires sized { Sized k.old }
    requires count_bound { k.old.count < 16 }
    ensures result_value { runs_of k.new ≡ runs_of k.old ++ run_of x ∷ [] }
    ensures sized_2 { Sized k.new }
    ensures by_one { k.new.count ≡ k.old.count + 1 }
{
    let i = k.count;
    k.runs[i] = x;
    k.count = i + 1;
}

// The runs of a split within the rows of a node from `at` on.
pub fn kept_in(lo: u64, rows: u32, p: Split) -> Kept
    ensures result_value { runs_of result ≡ flat_map (plan.cut p.start lo (lo + rows)) (split_of p).runs }
    ensures sized { Sized result }
{
    let mut k = none();
    let runs = &p.runs[..p.count.min(16)];
    for &r in runs {
        if let Some(x) = cutting::cut(p.start, lo, rows, r) {
            push(&mut k, x);
        }
    }
    k
}

// Whether runs are the whole of a segment of this many rows.
pub fn is_whole(rows: u32, k: Kept) -> bool
    ensures { result ≡ plan.is_whole rows (runs_of k) }
{
    k.count == 1 && k.runs[0].start == 0 && k.runs[0].size == rows
}
