// A leaf comes.
ghost use Rattle.std.specs.Prelude.{◌≡◌, ◌+◌, ◌≤◌, ◌<◌, length, IfSome};
ghost use Rattle.rules.specs.Plan as plan;
ghost use Rattle.jobs.specs.Job.{node_of};
ghost use Rattle.numbers.specs.Newest.{newest};
ghost use Rattle.stored.specs.Walk as rule;
ghost use Rattle.tables.specs.View.{view};
ghost use Rattle.check_job.specs.Seen.{SurelyNew};
ghost use Rattle.check_job.specs.Stack.{top_of};

use crate::stack;
use jobs::Node;
use table_job::quick;
use tables::StateBytes;

// Whether no node before i has the segment of node i, which is x, and other rows. A fresh segment is surely a new one.
fn one_count(s: &StateBytes, i: usize, x: Node, fresh: bool) -> bool
    requires x_value { node_of x ≡ plan.node_of (view s.now).job i }
    requires i_in_bounds { i < length (view s.now).job.nodes }
    requires surely_new { SurelyNew fresh (view s.now).job.nodes i }
    ensures { result ≡ rule.one_count (view s.now).job.nodes i }
{
    if fresh {
        return true;
    }
    for k in 0..i {
        if quick::other_rows(s, k, x.segment, x.rows) {
            return false;
        }
    }
    true
}

// Whether node i, which is x, is a leaf with its segment's number of rows.
fn leaf_fits(s: &StateBytes, i: usize, x: Node, fresh: bool) -> bool
    requires x_value { node_of x ≡ plan.node_of (view s.now).job i }
    requires i_in_bounds { i < length (view s.now).job.nodes }
    requires surely_new { SurelyNew fresh (view s.now).job.nodes i }
    ensures { result ≡ rule.leaf_fits (view s.now).job.nodes i }
{
    x.width == 1 && one_count(s, i, x, fresh)
}

// Node i, which is x, comes as a leaf to the first `top` of a stack.
pub(crate) fn leaf_step(
    s: &StateBytes,
    i: usize,
    x: Node,
    fresh: bool,
    free: &mut [u8; 24],
    top: usize,
) -> Option<usize>
    requires x_value { node_of x ≡ plan.node_of (view s.now).job i }
    requires i_in_bounds { i < length (view s.now).job.nodes }
    requires surely_new { SurelyNew fresh (view s.now).job.nodes i }
    requires top_bound { (top < 24) × (i < 24) }
    ensures result_after { top_of free.new result ≡ rule.leaf_step (view s.now).job.nodes i (newest free.old top) }
    ensures top_bound_2 { IfSome result (λ t. t ≤ top + 1) }
{
    if !leaf_fits(s, i, x, fresh) {
        return None;
    }
    Some(stack::push(free, top, i))
}
