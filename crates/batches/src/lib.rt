// The Rust's segments/mod.rs and the rows that pass through a pipeline. A batch is some rows and, for each column, the segment and the first row
// that they come from: no bytes, since these stay with the caller. What a batch is in the rules' terms (`batch_of`) is in specs/Batch.antt;
// nothing here can fail but by a row number past 32 bits or a fifth column, and both are answers. Read on in `pack_source`, which cuts and joins
// batches, and in `tables`, which keeps them in lent bytes.
#![tactic(auto)]

pub mod batch; // batch.rt: rows of a segment, and what is behind the first n
mod beside; // beside.rt: columns beside columns
mod segment; // segment.rt: the number of a segment

pub use batch::Batch;
pub use segment::SegmentId;
