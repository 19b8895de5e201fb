// Lowering a node and lowering a list of children call each other.
// kept: two functions in a cycle, not a loop: the tree is gone through as the rule says it, and the number of nodes that remain falls
ghost use Rattle.std.specs.Prelude.{◌≡◌, ℕ, suc, ◌+◌, ◌-◌, ◌≤◌, ◌<◌, length, IfSome};
ghost use Rattle.rules.specs.Lower.{lower_node, lower_list};
ghost use Rattle.laws.specs.JobOk.{JobOk};
ghost use Rattle.laws.specs.NextKid.{kids_after, next_kid, Whole};
ghost use Rattle.tables.specs.Change.{Becomes};
ghost use Rattle.tables.specs.View.{view, Sized, machine_len};
ghost use Rattle.lowering.specs.Walk.{child_or};

use crate::nodes;
use tables::{MACHINE_LEN, NodeIndex, SlotIndex, SplitIndex, StateBytes};

// The first child of node n from node i on.
fn next_child(s: &StateBytes, i: usize, n: NodeIndex) -> Option<NodeIndex>
    requires i_le_n { i ≤ n.at }
    requires job_ok { JobOk (view s.now).job }
    ensures value { child_or n.at result ≡ next_kid (view s.now).job.nodes i n.at }
    ensures upper_bound { IfSome result (λ c. c.at < n.at) }
{
    for c in i..n.at {
        let x = table_job::nodes::load_node(s, c);
        if jobs::nodes::is_kid(x, n.at) {
            return Some(NodeIndex { at: c });
        }
    }
    None
}

// Node n of split t, into slot k: nothing where it keeps no rows, and nothing below it is gone through; else its children, which stand from node i on,
// then the node. It is the rule with whatever number of calls is enough for the nodes left, those from i to n.
#[cycle(lower_children_lower_subtree)]
fn lower_subtree(s: &mut StateBytes, k: SlotIndex, t: SplitIndex, i: usize, n: NodeIndex)
    requires i_le_n { i ≤ n.at }
    requires job_ok { JobOk (view s.old).job }
    requires whole { Whole (view s.old).job i (suc n.at) }
    ensures size { length s.new ≡ machine_len }
    ensures becomes { (f : ℕ) → n.at - i + (n.at - i) < f → Becomes (lower_node f k.at t.at n.at) s.old s.new }
{
    if !reach::cut::keeps(s, n.at, t.at) {
        return;
    }
    let x = table_job::nodes::load_node(s, n.at);
    lower_children(s, k, t, i, n);
    nodes::lower_kind(s, k, t, n, x.kind);
}

// The children of node n from node i on, the oldest first, each with all below it.
#[cycle(lower_children_lower_subtree)]
fn lower_children(s: &mut StateBytes, k: SlotIndex, t: SplitIndex, i: usize, n: NodeIndex)
    requires i_le_n { i ≤ n.at }
    requires job_ok { JobOk (view s.old).job }
    requires whole { Whole (view s.old).job i n.at }
    ensures size { length s.new ≡ machine_len }
    ensures becomes { (f : ℕ) → n.at - i + (n.at - i) ≤ f →
        Becomes (λ m. lower_list f k.at t.at (kids_after m.job.nodes i n.at) m) s.old s.new }
{
    let Some(c) = next_child(s, i, n) else {
        return;
    };
    lower_subtree(s, k, t, i, c);
    lower_children(s, k, t, c.at + 1, n);
}

// Node n of split t with all below it, in any bytes that have a machine.
pub fn lower_node(s: &mut [u8], k: SlotIndex, t: SplitIndex, i: usize, n: NodeIndex)
    requires sized { Sized s.old }
    requires i_le_n { i ≤ n.at }
    requires job_ok { JobOk (view s.old).job }
    requires whole { Whole (view s.old).job i (suc n.at) }
    ensures { (f : ℕ) → n.at - i + (n.at - i) < f → Becomes (lower_node f k.at t.at n.at) s.old s.new }
{
    lower_subtree(s.first_chunk_mut::<MACHINE_LEN>().unwrap(), k, t, i, n);
}

// The children of node n from node i on, in any bytes that have a machine.
pub fn lower_list(s: &mut [u8], k: SlotIndex, t: SplitIndex, i: usize, n: NodeIndex)
    requires sized { Sized s.old }
    requires i_le_n { i ≤ n.at }
    requires job_ok { JobOk (view s.old).job }
    requires whole { Whole (view s.old).job i n.at }
    ensures { (f : ℕ) → n.at - i + (n.at - i) ≤ f →
        Becomes (λ m. lower_list f k.at t.at (kids_after m.job.nodes i n.at) m) s.old s.new }
{
    lower_children(s.first_chunk_mut::<MACHINE_LEN>().unwrap(), k, t, i, n);
}
