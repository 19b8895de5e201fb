// Document 01, "Job bytes" and refusal 8, document 02 (h), 17 to 19: the records of a job in sequence, first those before the splits
// (`node_records`), then the splits. Runs stay in the job bytes until the job is accepted: a split is read as an outline, its start, its end and
// where its runs lie, and its runs are checked there, so that a refusal has touched nothing and nobody carries them. `plan` goes on to place the
// nodes.
#![tactic(auto)]

pub mod reader; // reader.rt: all records
pub mod splits; // splits.rt: the record SP, and any record after the first

use node_records::Draft;

// What the splits are checked against: the slots, how many nodes and parentless nodes there are, and the last node's rows.
#[derive(Clone, Copy)]
pub struct Head {
    pub slots: u8,
    pub nodes: usize,
    pub free: usize,
    pub rows: u32,
}

// A split as its record has it: its runs, `count` of them, stay in the job bytes, from `at` on.
#[derive(Clone, Copy)]
pub struct Outline {
    pub start: u32,
    pub end: u32,
    pub count: usize,
    pub at: usize,
}

// What all records come to, if they are accepted: the draft and its splits.
// kept: arrays of which the first entries count, with a number beside each, for there is no heap.
#[derive(Clone, Copy)]
pub struct Records {
    pub draft: Draft,
    pub splits: [Outline; 16],
    pub split_count: usize,
}
