// Facts of nodes that the checks ask for.
ghost use Rattle.std.specs.Prelude.{◌≡◌, map};
ghost use Rattle.rules.specs.Job as rule;
ghost use Rattle.rules.specs.Table.{any};
ghost use Rattle.jobs.specs.Job.{node_of};
ghost use Rattle.node_records.specs.Draft.{draft_of, Fine};

use crate::Draft;
use jobs::{Kind, Node};

// Whether a node comes too early: before the slots. One after a split is refused where the splits are read.
pub fn node_late(d: &Draft) -> bool
    requires { Fine d.now }
    ensures { result ≡ rule.node_late (draft_of d.now) }
{
    d.slots == 0
}

// Whether a node is of a segment, with another number of rows.
pub fn other_rows(x: Node, g: u32, n: u32) -> bool
    ensures { result ≡ rule.other_rows g n (node_of x) }
{
    x.kind == Kind::Segment && x.segment == g && x.rows != n
}

// Whether one of the nodes is of a segment, with another number of rows.
pub fn any_other_rows(nodes: &[Node], g: u32, n: u32) -> bool
    ensures { result ≡ any (rule.other_rows g n) (map node_of nodes.now) }
{
    for &x in nodes {
        if other_rows(x, g, n) {
            return true;
        }
    }
    false
}
