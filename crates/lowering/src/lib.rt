// Document 01, "Lowering": a split's pipelines, made from the job's nodes. "Lowering a node and lowering a list of children call each other", and the
// number of nodes left falls; a node that keeps nothing lowers to nothing. A segment becomes a source of its own or a claimed port with the stage
// that cuts it, a join the source over its kept children's ports. `compile`, `scan` and `join` of the Rust's `Compiler`.
#![tactic(auto)]

pub mod joins; // joins.rt: ports with their readers
mod kids; // kids.rt: the children of a node that keep rows
mod leaves; // leaves.rt: a segment becomes a pipeline
mod nodes; // nodes.rt: a node becomes a pipeline
pub mod walk; // walk.rt: all below a node is lowered before it
