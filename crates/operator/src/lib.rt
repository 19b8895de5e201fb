// The Rust's plan/physical/operator.rs, but for its sets of inlets: what a source or a stage answers, and the state that a stopped pipeline is
// in. "blocked is on IO or on a numbered inlet": `State::Blocked` holds a second enum, `Io` or `Inlet`, and both stand in the struct `Pipeline`
// with its number and its place on the ready stack. Each method is an equation with the rule of its name; specs/ has what each case is in the
// rules' terms.
#![tactic(auto)]

mod answer; // answer.rt: the answers of a source or a stage
mod pipeline; // pipeline.rt: the state of a stopped pipeline

pub use answer::{SourceBlocked, SourceReady, Step};
pub use pipeline::{Pipeline, State};
