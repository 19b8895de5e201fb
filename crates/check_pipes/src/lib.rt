// Check 12 of the pipelines: each that lives stands at a place of the job with a state, a stage and a source in range, waits for an inlet that it has
// or a read that it owns, and has its outlet. Pipelines are passed over in blocks of bytes that are all 0; a segment source before its first run has
// a short test.
#![tactic(auto)]

pub mod ends; // ends.rt: the ports at a pipeline's inlets and its outlet
pub mod pipes; // pipes.rt: one pipeline, and all
mod plain; // plain.rt: a plain source, tested first
pub mod stage; // stage.rt: a pipeline's stage
pub mod state; // state.rt: a pipeline's state
