// Nodes into their table.
ghost use Rattle.std.specs.Prelude.{◌≤◌};
ghost use Rattle.jobs.specs.Job.{front, node_of};
ghost use Rattle.tables.specs.Decode as decode;
ghost use Rattle.table_blank.specs.Filled.{Filled};

use crate::node;
use jobs::Node;
use tables::StateBytes;

const NODES: usize = 679;

// The first n of some nodes.
// kept: outlines.rt has this loop for splits; one over both would take the place, the size, how many and the writer, and be no shorter.
pub(crate) fn store_nodes(s: &mut StateBytes, nodes: [Node; 24], n: usize)
    requires n_bound { n ≤ 24 }
    ensures { Filled decode.node 679 19 24 s.old s.new n (front node_of nodes n) }
{
    for i in 0..n {
        let a = NODES + i * 19;
        node::put_node(&mut s[a..a + 19], nodes[i]);
    }
}
