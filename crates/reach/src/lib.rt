// What the stored job says of rows: the runs that a node keeps of a split, the leaves of one segment, the span of the splits, what a leaf reaches and
// which splits overlap it. Document 01, "Job bytes" and "Ports and shares"; in the Rust `Reach` and `overlapping` of compile.rs. `kept` has the
// cutting of runs by value.
#![tactic(auto)]

pub mod cut; // cut.rt: the runs that a node keeps of a split
pub mod leaves; // leaves.rt: leaves of one segment
mod meeting; // meeting.rt: whether a run of a split has rows of a node
pub mod places; // places.rt: the split of a place, and its runs with their leaf
pub mod span; // span.rt: the span of the splits
pub mod within; // within.rt: what a leaf reaches, and the splits that overlap it

pub use span::Span;
pub use within::Reach;
