// Document 01, "Job bytes": job bytes read as a whole. `parse::read_job` answers the first refusal or the job; `place` then gives every node
// its first row among the root's, a concat's children one after another and a pack's side by side, by one pass up the tree and one down. What it
// promises is the rule `parse` of any bytes. The Rust's plans/concat.rs and typed.rs have row counts and offsets; these are what is kept of them.
// `table_blank` writes the job into a state.
#![tactic(auto)]

mod place; // place.rt: where each node's rows stand among the root's
pub mod parse; // parse.rt: a job read from its bytes

use jobs::Node;
use split_records::Outline;

// What job bytes come to that are accepted: the job, whose runs stay in the bytes, and of each node its number in job order.
// kept: arrays of which the first entries count, with a number beside each, for there is no heap.
#[derive(Clone, Copy)]
pub struct Parsed {
    pub slots: u8,
    pub nodes: [Node; 24],
    pub node_count: usize,
    pub labels: [u8; 24],
    pub splits: [Outline; 16],
    pub split_count: usize,
}
