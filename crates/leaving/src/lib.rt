// A split ends: it leaves its slot. The slot's pipelines retire by rising number and leave the ready stack, reads that waited for them lose their
// owner, the slot's ports go; then the split is finished, its shared ports go, claimed or not, and each shared source that nobody reads any more
// retires in the same way. A split that keeps nothing has no slot to leave, and ends by the second half alone. `finish_split` of the Rust's `Core`.
#![tactic(auto)]

pub mod ends; // ends.rt: the two halves of a split's end
mod ports; // ports.rt: ports of a slot and of a split
mod rising; // rising.rt: pipelines go by rising number
