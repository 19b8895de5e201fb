// The table of nodes.
ghost use Rattle.std.specs.Prelude.{◌≡◌};
ghost use Rattle.rules.specs.Plan as plan;
ghost use Rattle.jobs.specs.Job.{node_of};
ghost use Rattle.tables.specs.View.{view};

use crate::{counts, node};
use jobs::Node;
use tables::StateBytes;

pub(crate) const NODES: usize = 679;

// The node at a place of the job; past the last, one without rows.
pub fn load_node(s: &StateBytes, n: usize) -> Node
    ensures { node_of result ≡ plan.node_of (view s.now).job n }
{
    if counts::node_count(s) <= n {
        return node::no_node();
    }
    let a = NODES + n * 19;
    node::get_node(&s[a..a + 19])
}
