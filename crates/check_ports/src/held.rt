// A batch of rows that segments of the job have.
ghost use Rattle.std.specs.Prelude.{◌≡◌, ◌≤◌, ◌<◌, length};
ghost use Rattle.rules.specs.Table.{all};
ghost use Rattle.rules.specs.Plan.{node_of};
ghost use Rattle.rules.specs.Check.{cell_ok, batch_ok};
ghost use Rattle.batches.specs.Batch.{batch_of};
ghost use Rattle.tables.specs.View.{view};
ghost use Rattle.check_ports.specs.Batches.{cell, holds_rows};

use batches::Batch;
use tables::StateBytes;

// Whether node l is a leaf of segment g with at least so many rows.
fn holds_rows(s: &StateBytes, l: usize, g: u32, end: u64) -> bool
    requires l_in_bounds { l < length (view s.now).job.nodes }
    ensures { result ≡ holds_rows g end (node_of (view s.now).job l) }
{
    table_job::node_fields::is_leaf(s, l)
        && table_job::node_fields::node_segment(s, l) == g
        && end <= u64::from(table_job::node_fields::node_rows(s, l))
}

// Whether so many rows from one on are rows of a segment of the job.
fn cell_ok(s: &StateBytes, g: u32, row: u32, rows: u32) -> bool
    ensures { result ≡ cell_ok (view s.now).job rows (cell g row) }
{
    let n = table_job::counts::node_count(s);
    let end = u64::from(row) + u64::from(rows);
    for l in 0..n {
        if holds_rows(s, l, g, end) {
            return true;
        }
    }
    false
}

// The same for every column of a batch.
fn cells_ok(s: &StateBytes, b: Batch) -> bool
    requires width_bound { b.width ≤ 4 }
    ensures { result ≡ all (cell_ok (view s.now).job b.rows) (batch_of b).cells }
{
    for i in 0..b.width {
        if !cell_ok(s, b.segment[i], b.first[i], b.rows) {
            return false;
        }
    }
    true
}

// Whether a batch has rows, no more columns than the node, and in each of them rows that its segment has.
#[tactic(auto, using(crate::specs::Batches::cells_count))]
pub fn batch_ok(s: &StateBytes, width: usize, b: Batch) -> bool
    requires width_bound { b.width ≤ 4 }
    ensures { result ≡ batch_ok (view s.now).job width (batch_of b) }
{
    0 < b.rows && b.width <= width && cells_ok(s, b)
}
