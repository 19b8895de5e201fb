// A draft with one node record more.
ghost use Rattle.std.specs.Prelude.{◌≡◌, ◌+◌, ◌≤◌, ◌<◌};
ghost use Rattle.rules.specs.Job as rule;
ghost use Rattle.jobs.specs.Job.{node_of, front};
ghost use Rattle.node_records.specs.Draft.{newest_of, draft_of, reading_of, Fine};

use crate::Draft;
use jobs::Node;

// One node more, which is parentless, above the k oldest parentless nodes.
pub fn new_node(d: &mut Draft, x: Node, k: usize)
    requires fine { Fine d.old }
    requires records_bound { (d.old.records < 24) × (k ≤ d.old.free_count) }
    ensures result_value { reading_of d.new ≡ rule.grows (reading_of d.old)
        (rule.new_node (node_of x) (front node_of d.old.nodes d.old.node_count) (newest_of d.old.free k) (draft_of d.old)) }
    ensures fine_2 { Fine d.new }
{
    let i = d.node_count;
    d.nodes[i] = x;
    d.free[k] = i as u8;
    d.labels[i] = d.records as u8;
    d.node_count = i + 1;
    d.free_count = k + 1;
    d.records += 1;
}
