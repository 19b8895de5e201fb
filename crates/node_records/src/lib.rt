// Document 01, "Job bytes" and the refusals 2 to 7: the records before the splits (`SC`, `SG`, `CC`, `PK`), each checked against what was read so
// far. A draft is that: the nodes, and the stack of those without a parent, from which a join takes the n newest. A join of one child is checked
// and counted as any node, and then the draft goes on with that child in its place (document 02 (k)). Each record's function answers what the rule
// `accept` does: the draft takes the record, or it stays as it was and the first refusal in rising number is told. `split_records` reads on; the
// Rust has plans as values (plans/concat.rs, plans/segment_scan.rs, typed.rs) and no bytes.
#![tactic(auto)]

pub mod accept; // accept.rt: a record before the splits
mod drafts; // drafts.rt: a draft with one node record more
mod join; // join.rt: the records CC and PK
pub mod leaf; // leaf.rt: the records SC and SG
pub mod nodes; // nodes.rt: what the checks ask of the nodes

use jobs::Node;

// A job of which some records before the splits are read. The first `free_count` of `free` are the parentless nodes, the newest last. `records`
// counts the node records, those that made no node too, and a node's label is its number among them.
// kept: arrays of which the first entries count, with a number beside each, for there is no heap.
#[derive(Clone, Copy)]
pub struct Draft {
    pub slots: u8,
    pub nodes: [Node; 24],
    pub node_count: usize,
    pub free: [u8; 24],
    pub free_count: usize,
    pub labels: [u8; 24],
    pub records: usize,
}
