// Pipelines are made and retire: laid at their place with a source, a stage and inlets, numbered by the newest freed number, and, when done, taken
// away with what they read: their inlets lose their reader, their number is freed, no read waits for them. `add_pipeline`, `retire` and
// `cancel_reads` of the Rust's `Core`. A place that is taken is a cause of 14.
#![tactic(auto)]

mod readers; // readers.rt: the readers of ports go
pub mod laying; // laying.rt: a pipeline at its place
pub mod numbering; // numbering.rt: a pipeline's number, and its place on the ready stack
mod owners; // owners.rt: the reads that waited for a pipeline
pub mod retiring; // retiring.rt: a pipeline goes
