// Document 01, "Job bytes": a job by value, nodes and splits in arrays of which the first n count. What each type stands for is in specs/Job.antt
// (`node_of`, `split_of`, `job_of`); children stand before their parents, so that a node's number tells what may be below it. The Rust's plans are boxes
// with closures; here a plan is its nodes in postfix, as the job bytes have them. Why job bytes, or any call, are refused is a `Refusal` (specs/Refusal.antt).
// `node_records` makes nodes, `tables` keeps them in lent bytes.
#![tactic(auto)]

pub mod nodes; // nodes.rt: tests of a node
pub mod refusal; // refusal.rt: why a call is refused

pub use refusal::Refusal;

// What a node is.
#[derive(Clone, Copy, PartialEq, Eq)]
pub enum Kind {
    Segment,
    Concat,
    Pack,
}

// The parent of a node that has none.
// kept: a number and no Option, since the bytes of a stored job have it so.
pub const NONE: u8 = 255;

// A node: children stand before their parent. `at` is the root's row that row 0 is in.
#[derive(Clone, Copy)]
pub struct Node {
    pub kind: Kind,
    pub segment: u32,
    pub rows: u32,
    pub width: u8,
    pub parent: u8,
    pub at: u64,
}

// Kept rows: where they start, counted from the split's start, and how many.
#[derive(Clone, Copy)]
pub struct Run {
    pub start: u32,
    pub size: u32,
}

// Rows of the root from `start` to `end`, and the first `count` of `runs`.
// kept: an array and how many of it count, here and in `Job`, since there is no heap.
#[derive(Clone, Copy)]
pub struct Split {
    pub start: u32,
    pub end: u32,
    pub count: usize,
    pub runs: [Run; 16],
}

// The first `node_count` nodes and the first `split_count` splits.
#[derive(Clone, Copy)]
pub struct Job {
    pub slots: u8,
    pub nodes: [Node; 24],
    pub node_count: usize,
    pub splits: [Split; 16],
    pub split_count: usize,
}
