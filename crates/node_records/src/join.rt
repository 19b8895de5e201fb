// The records CC and PK: a node over the newest parentless nodes.
ghost use Rattle.std.specs.Prelude.{◌≡◌, ◌+◌, ◌≤◌, ◌<◌, length, map, OnErr};
ghost use Rattle.std.proofs.Math.Seq.{slice};
ghost use Rattle.rules.specs.Table.{any, sum_of};
ghost use Rattle.rules.specs.Job as rule;
ghost use Rattle.jobs.specs.Job.{kind_of, node_of, front};
ghost use Rattle.jobs.specs.Refusal.{judged};
ghost use Rattle.node_records.specs.Draft.{newest_of, draft_of, reading_of, Fine};
ghost use Rattle.node_records.specs.Kids.{measure_of, differs, kid_nodes, Kids, Summed, joined_of};

use crate::{Draft, drafts};
use jobs::nodes::is_pack;
use jobs::{Kind, NONE, Node, Refusal};

// What the children of a new node come to.
#[derive(Clone, Copy)]
pub struct Totals {
    pub width: u64,
    pub rows: u64,
    pub unequal: bool,
}

// A node's rows, or else its width.
// kept: which of the two is known when it runs, by the kind; closures for them, of two types, would make `totals_of` say each call twice.
fn measure(x: Node, rows: bool) -> u64
    ensures value { result ≡ measure_of rows (node_of x) }
    ensures upper_bound { result < 4294967296 }
{
    if rows {
        u64::from(x.rows)
    } else {
        u64::from(x.width)
    }
}

// The sum of the children's rows, or of their widths.
fn sum(nodes: &[Node], kids: &[u8], rows: bool) -> u64
    requires { Kids nodes.now kids.now }
    ensures { result ≡ sum_of (measure_of rows) (kid_nodes nodes.now kids.now) }
{
    let mut total = 0;
    for &c in kids {
        total += measure(nodes[usize::from(c)], rows);
    }
    total
}

// Whether a child has other rows, or another width, than v.
fn differ(nodes: &[Node], kids: &[u8], rows: bool, v: u64) -> bool
    requires { Kids nodes.now kids.now }
    ensures { result ≡ any (differs rows v) (kid_nodes nodes.now kids.now) }
{
    for &c in kids {
        if measure(nodes[usize::from(c)], rows) != v {
            return true;
        }
    }
    false
}

// What the children come to under a node of kind k.
fn totals_of(nodes: &[Node], kids: &[u8], k: Kind) -> Totals
    requires kids { Kids nodes.now kids.now }
    requires some { 0 < length kids.now }
    ensures { Summed (kind_of k) (kid_nodes nodes.now kids.now) result.width result.rows result.unequal }
{
    let pack = is_pack(k);
    let total = sum(nodes, kids, !pack);
    let first = measure(nodes[usize::from(kids[0])], pack);
    let unequal = differ(nodes, &kids[1..], pack, first);
    if pack {
        Totals {
            width: total,
            rows: first,
            unequal,
        }
    } else {
        Totals {
            width: first,
            rows: total,
            unequal,
        }
    }
}

// A parent for each child.
fn set_parents(nodes: &mut [Node], kids: &[u8], p: u8)
    requires kids { Kids nodes.old kids.now }
    requires p_bound { p < 255 }
    ensures value { map node_of nodes.new ≡ rule.set_parents p kids.now (map node_of nodes.old) }
    ensures nodes_len { length nodes.new ≡ length nodes.old }
{
    for &c in kids {
        nodes[usize::from(c)].parent = p;
    }
}

// A node of kind k over the parentless nodes from `from` on.
fn join(d: &mut Draft, k: Kind, from: usize, rows: u32, width: u8)
    requires fine { Fine d.old }
    requires records_bound { (d.old.records < 24) × (from ≤ d.old.free_count) }
    ensures result_value { reading_of d.new ≡ rule.grows (reading_of d.old) (rule.new_node (joined_of (kind_of k) rows width)
        (rule.set_parents d.old.node_count (slice from d.old.free_count d.old.free) (front node_of d.old.nodes d.old.node_count))
        (newest_of d.old.free from) (draft_of d.old)) }
    ensures fine_2 { Fine d.new }
{
    let count = d.node_count;
    let to = d.free_count;
    let free = d.free;
    set_parents(&mut d.nodes[..count], &free[from..to], count as u8);
    let x = Node {
        kind: k,
        segment: 0,
        rows,
        width,
        parent: NONE,
        at: 0,
    };
    drafts::new_node(d, x, from);
}

// The draft takes a node of kind k over the n newest parentless nodes; over one alone it stands for that one.
#[tactic(auto, unfolding(rules::specs::Job::accept, rules::specs::Job::unless))]
pub fn accept_join(d: &mut Draft, k: Kind, n: u32) -> Result<(), Refusal>
    requires { Fine d.old }
    ensures result_value { judged result (reading_of d.new) ≡ rule.accept (rule.join (kind_of k) n) (reading_of d.old) }
    ensures fine { Fine d.new }
    ensures refused { OnErr result (d.new ≡ d.old) }
{
    if d.slots == 0 {
        return Err(Refusal::Malformed);
    }
    if 24 <= d.records {
        return Err(Refusal::PastLimit);
    }
    let m = n as usize;
    if m == 0 || d.free_count < m {
        return Err(Refusal::NotATree);
    }
    let from = d.free_count - m;
    let free = d.free;
    let t = totals_of(&d.nodes[..d.node_count], &free[from..d.free_count], k);
    if 4 < t.width {
        return Err(Refusal::PastLimit);
    }
    if t.unequal {
        return Err(Refusal::Unequal);
    }
    if 4294967295 < t.rows {
        return Err(Refusal::TooManyRows);
    }
    if n == 1 {
        d.records += 1;
    } else {
        join(d, k, from, t.rows as u32, t.width as u8);
    }
    Ok(())
}
