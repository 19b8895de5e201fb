// An inner node comes.
ghost use Rattle.std.specs.Prelude.{◌≡◌, ◌+◌, ◌≤◌, ◌<◌, length, IfSome};
ghost use Rattle.rules.specs.Plan as plan;
ghost use Rattle.jobs.specs.Job.{node_of};
ghost use Rattle.numbers.specs.Newest.{newest};
ghost use Rattle.stored.specs.Walk as rule;
ghost use Rattle.tables.specs.View.{view};
ghost use Rattle.check_job.specs.Stack.{top_of};

use crate::{pops, stack};
use jobs::{Node, nodes};
use tables::StateBytes;

// Whether the two newest of the first `top` of a stack are children of node i.
fn has_two(s: &StateBytes, i: usize, free: &[u8; 24], top: usize) -> bool
    requires top_bound { top ≤ 24 }
    ensures { result ≡ rule.has_two (view s.now).job.nodes i (newest free.now top) }
{
    2 <= top
        && nodes::is_kid(
            table_job::nodes::load_node(s, usize::from(free[top - 1])),
            i,
        )
        && nodes::is_kid(
            table_job::nodes::load_node(s, usize::from(free[top - 2])),
            i,
        )
}

// Whether node i, which is x, is an inner node over two children at least, as far as these are not looked at.
fn join_fits(s: &StateBytes, i: usize, x: Node, free: &[u8; 24], top: usize) -> bool
    requires x_value { node_of x ≡ plan.node_of (view s.now).job i }
    requires top_bound { top ≤ 24 }
    ensures { result ≡ rule.join_fits (view s.now).job.nodes i (newest free.now top) }
{
    x.segment == 0 && x.width <= 4 && has_two(s, i, free, top)
}

// Node i, which is x, comes as an inner node to the first `top` of a stack.
pub(crate) fn join_step(
    s: &StateBytes,
    i: usize,
    x: Node,
    free: &mut [u8; 24],
    top: usize,
) -> Option<usize>
    requires x_value { node_of x ≡ plan.node_of (view s.now).job i }
    requires top_bound { (top < 24) × (i < 24) }
    ensures result_after { top_of free.new result ≡ rule.join_step (view s.now).job.nodes i (newest free.old top) }
    ensures top_bound_2 { IfSome result (λ t. t ≤ top + 1) }
{
    if !join_fits(s, i, x, free, top) {
        return None;
    }
    let left = pops::pops(s, i, x, free, top)?;
    Some(stack::push(free, left, i))
}
