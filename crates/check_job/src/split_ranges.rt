// The splits.
ghost use Rattle.std.specs.Prelude.{◌≡◌, not, ◌+◌, ◌≤◌, ◌<◌, length, take};
ghost use Rattle.std.proofs.Math.Option.{none};
ghost use Rattle.rules.specs.Job.{run_fault, runs_fault};
ghost use Rattle.jobs.specs.Job.{run_of};
ghost use Rattle.stored.specs.Walk as rule;
ghost use Rattle.stored.specs.Fits.{splits_fit};
ghost use Rattle.layout.specs.Cut.{cut};
ghost use Rattle.layout.specs.Records.{table};
ghost use Rattle.tables.specs.Decode.{run, split};
ghost use Rattle.tables.specs.View.{view};
ghost use Rattle.check_job.specs.Splits.{end_before};

use jobs::Run;
use table_job::{SplitRecord, quick};
use tables::StateBytes;

// Whether a run has rows, starts at the row `from` or later, and ends within a split of this size.
fn run_fits(size: u64, from: u64, x: Run) -> bool
    ensures { result ≡ not (run_fault size (end_before from) (run_of x)) }
{
    x.size != 0 && from <= u64::from(x.start) && u64::from(x.start) + u64::from(x.size) <= size
}

// The first row where the run after this one may start: one row at least is left out between them.
fn next_from(x: Run) -> u64
    ensures { result ≡ x.start + x.size + 1 }
{
    u64::from(x.start) + u64::from(x.size) + 1
}

// Whether the first n runs of a split's record fit the split's size.
fn runs_fit(r: &SplitRecord, size: u64, n: usize) -> bool
    requires n_bound { n ≤ 16 }
    ensures { result ≡ not (runs_fault size none (take n (table run 8 16 (cut 9 137 r.now)))) }
{
    let mut from: u64 = 0;
    for k in 0..n {
        let x = quick::run(r, k);
        if !run_fits(size, from, x) {
            return false;
        }
        from = next_from(x);
    }
    true
}

// Whether the split of a record fits a plan with so many rows.
// kept: tried as one `&&` of four parts, and the proof didn't close without values that have no name of ours.
fn split_fits(rows: u32, r: &SplitRecord) -> bool
    ensures { result ≡ rule.split_fits rows (split r.now) }
{
    let n = quick::count(r);
    let start = quick::start(r);
    let end = quick::end(r);
    if 16 < n || end < start || rows < end {
        return false;
    }
    runs_fit(r, u64::from(end - start), n)
}

// Whether all splits fit the root's rows.
pub(crate) fn splits_fit(s: &StateBytes) -> bool
    requires nodes_nonzero { 0 < length (view s.now).job.nodes }
    ensures { result ≡ splits_fit (view s.now).job }
{
    let root = table_job::nodes::load_node(s, table_job::counts::node_count(s) - 1);
    let n = table_job::counts::split_count(s);
    for i in 0..n {
        if !split_fits(root.rows, quick::split_record(s, i)) {
            return false;
        }
    }
    true
}
