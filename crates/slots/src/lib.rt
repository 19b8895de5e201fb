// A slot's split: it begins and puts out rows. The next split is lowered into a free slot, unless it keeps nothing and is finished at once; a
// dirty slot's turn moves all batches of its port to the outputs, wakes the writer, and ends the split (`leaving`) if the port is closed.
// `activate` and `advance` of the Rust's `Scan`.
#![tactic(auto)]

pub mod activation; // activation.rt: the next split takes a free slot
pub mod serving; // serving.rt: a dirty slot's turn
mod outputs; // outputs.rt: the batches of the root's port
