// The records SC and SG: the slots, and a segment.
ghost use Rattle.std.specs.Prelude.{◌≡◌, ◌<◌, OnErr};
ghost use Rattle.rules.specs.Job as rule;
ghost use Rattle.jobs.specs.Job.{node_of};
ghost use Rattle.jobs.specs.Refusal.{judged};
ghost use Rattle.node_records.specs.Draft.{reading_of, Fine};

use crate::{Draft, drafts, nodes};
use jobs::{Kind, NONE, Node, Refusal};

// The draft takes its slots.
#[tactic(auto, unfolding(rules::specs::Job::accept, rules::specs::Job::unless))]
pub fn accept_slots(d: &mut Draft, n: u32) -> Result<(), Refusal>
    requires { Fine d.old }
    ensures result_value { judged result (reading_of d.new) ≡ rule.accept (rule.slots n) (reading_of d.old) }
    ensures fine { Fine d.new }
    ensures refused { OnErr result (d.new ≡ d.old) }
{
    if d.slots != 0 {
        return Err(Refusal::Malformed);
    }
    if n == 0 || 3 < n {
        return Err(Refusal::PastLimit);
    }
    d.slots = n as u8;
    Ok(())
}

// The leaf of a segment g of n rows.
pub fn leaf_node(g: u32, n: u32) -> Node
    ensures { node_of result ≡ rule.leaf_node g n }
{
    Node {
        kind: Kind::Segment,
        segment: g,
        rows: n,
        width: 1,
        parent: NONE,
        at: 0,
    }
}

// The draft takes a segment g of n rows.
#[tactic(auto, unfolding(rules::specs::Job::accept, rules::specs::Job::unless, jobs::specs::Job::front))]
pub fn accept_leaf(d: &mut Draft, g: u32, n: u32) -> Result<(), Refusal>
    requires { Fine d.old }
    ensures result_value { judged result (reading_of d.new) ≡ rule.accept (rule.leaf g n) (reading_of d.old) }
    ensures fine { Fine d.new }
    ensures refused { OnErr result (d.new ≡ d.old) }
{
    if nodes::node_late(d) {
        return Err(Refusal::Malformed);
    }
    if 24 <= d.records {
        return Err(Refusal::PastLimit);
    }
    if nodes::any_other_rows(&d.nodes[..d.node_count], g, n) {
        return Err(Refusal::TwoRowCounts);
    }
    let k = d.free_count;
    drafts::new_node(d, leaf_node(g, n), k);
    Ok(())
}
