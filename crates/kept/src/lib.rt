// Document 01, "Job bytes": the kept rows of a node, by value. A split's runs are counted from its start; those of a node are the runs cut to the
// node's rows and counted from its first. `reach` asks this of the stored job. Of the Rust's typed.rs this is the part that counts rows.
#![tactic(auto)]

mod cutting; // cutting.rt: a run cut to a node's rows
pub mod runs; // runs.rt: the runs of a split within a node

use jobs::Run;

// The first `count` runs, in a node's rows.
// kept: arrays of which the first entries count, with a number beside each, for there is no heap.
#[derive(Clone, Copy)]
pub struct Kept {
    pub count: usize,
    pub runs: [Run; 16],
}
