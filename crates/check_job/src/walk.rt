// All nodes come, one after another.
ghost use Rattle.std.specs.Prelude.{◌≡◌, true, [], ◌+◌, ◌≤◌, ◌<◌, length, IfSome};
ghost use Rattle.rules.specs.Job.{max_rows};
ghost use Rattle.rules.specs.Plan as plan;
ghost use Rattle.jobs.specs.Job.{node_of};
ghost use Rattle.stored.specs.Walk as rule;
ghost use Rattle.tables.specs.View.{view};
ghost use Rattle.check_job.specs.Seen.{SurelyNew, Distinct};
ghost use Rattle.check_job.specs.Stack.{stack_of, top_of};
ghost use Rattle.check_job.specs.Walk.{comes, RowsFit};

use crate::stack::Stack;
use crate::{join, leaf, seen};
use jobs::{Node, nodes};
use tables::StateBytes;

// Node i, which is x, comes to a stack.
fn step(
    s: &StateBytes,
    i: usize,
    x: Node,
    fresh: bool,
    free: &mut [u8; 24],
    w: Option<usize>,
) -> Option<usize>
    requires x_value { node_of x ≡ plan.node_of (view s.now).job i }
    requires i_in_bounds { i < length (view s.now).job.nodes }
    requires surely_new { SurelyNew fresh (view s.now).job.nodes i }
    requires top_le_i { IfSome w (λ t. t ≤ i) × (i < 24) }
    ensures result_after { top_of free.new result ≡ comes (view s.now).job.nodes i (top_of free.old w) }
    ensures top_bound { IfSome result (λ t. t ≤ i + 1) }
    ensures rows_le_max_rows { x.rows ≤ max_rows }
{
    let top = w?;
    if nodes::is_segment(x.kind) {
        return leaf::leaf_step(s, i, x, fresh, free, top);
    }
    join::join_step(s, i, x, free, top)
}

// All nodes, with their numbers of rows, which four bytes hold.
pub(crate) fn walk(s: &StateBytes) -> Stack
    ensures result_value { stack_of result ≡ rule.walk (view s.now).job.nodes 0 (length (view s.now).job.nodes) [] }
    ensures rows_fit { RowsFit (view s.now).job.nodes }
    ensures distinct { result.distinct ≡ true → Distinct (view s.now).job.nodes }
{
    let n = table_job::counts::node_count(s);
    let mut free = [0u8; 24];
    let mut marks = [0u8; 64];
    let mut top = Some(0);
    let mut distinct = true;
    for i in 0..n {
        let x = table_job::nodes::load_node(s, i);
        let fresh = seen::mark(&mut marks, x.segment);
        distinct = seen::all_fresh(distinct, x.kind, fresh);
        top = step(s, i, x, fresh, &mut free, top);
    }
    Stack {
        free,
        top,
        distinct,
    }
}
