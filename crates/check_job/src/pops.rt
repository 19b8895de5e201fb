// The children of a node, taken off the stack.
ghost use Rattle.std.specs.Prelude.{◌≡◌, ◌≤◌, length, IfSome};
ghost use Rattle.rules.specs.Plan as plan;
ghost use Rattle.jobs.specs.Job.{kind_of, node_of};
ghost use Rattle.numbers.specs.Newest.{newest};
ghost use Rattle.stored.specs.Walk as rule;
ghost use Rattle.tables.specs.View.{view};
ghost use Rattle.check_job.specs.Stack.{top_of};

use crate::left;
use jobs::{Node, nodes};
use tables::StateBytes;

// No more children come to the first `top` of a stack; none where something is left of their parent x.
fn closed(x: Node, rest: u128, free: &[u8; 24], top: usize) -> Option<usize>
    ensures result_value { top_of free.now result ≡ rule.closed (node_of x) rest (newest free.now top) }
    ensures top_le_top { IfSome result (λ t. t ≤ top) }
{
    if left::is_nothing(x, rest) {
        Some(top)
    } else {
        None
    }
}

// The children of node i, which is x, taken off the first `top` of a stack; none where one does not fit.
pub(crate) fn pops(s: &StateBytes, i: usize, x: Node, free: &[u8; 24], top: usize) -> Option<usize>
    requires x_value { node_of x ≡ plan.node_of (view s.now).job i }
    requires top_bound { top ≤ 24 }
    ensures result_value { top_of free.now result ≡ rule.pops (view s.now).job.nodes i (rule.whole (kind_of x.kind) (node_of x))
        (newest free.now top) }
    ensures top_le_top { IfSome result (λ t. t ≤ top) }
{
    let mut rest = left::whole(x);
    for k in (0..top).rev() {
        let y = table_job::nodes::load_node(s, usize::from(free[k]));
        if !nodes::is_kid(y, i) {
            return closed(x, rest, free, k + 1);
        }
        if !left::child_fits(x, rest, y) {
            return None;
        }
        rest = left::less(x, rest, y);
    }
    closed(x, rest, free, 0)
}
