// The Rust's operators/scan.rs, the request and the cut: the source of one segment's kept runs, and the stage that cuts a claimed segment's batch
// alike. Added by document 01: the source asks for its read when first tested and blocks on IO; once its bytes came it emits its kept runs, a
// batch each, More before the last, Final for the last, then End. All by value: a source is told whether its bytes came, and answers.
#![tactic(auto)]

mod cut; // cut.rt: the stage that cuts a claimed batch to its runs
mod pieces; // pieces.rt: runs of a leaf, and a batch of each in turn
mod segment; // segment.rt: the source

pub use cut::Cut;
pub use pieces::Pieces;
pub use segment::{SegmentSource, SegmentTest};
