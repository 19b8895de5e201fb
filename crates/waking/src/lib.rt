// Document 01, "Ports and shares": who is woken by a change. A pipeline becomes runnable and stands on the ready stack once; a change wakes a reader
// only if it is blocked on that inlet; a port that was read wakes its writer only if that is stopped at an outlet and none of its outlets is full; a
// slot whose port changed is dirty. `make_runnable`, `mark_dirty` and the parts of `wake_neighbours` of the Rust's `Core`.
#![tactic(auto)]

pub mod mark; // mark.rt: a port's mark goes to its reader
pub mod reader; // reader.rt: a change wakes a reader
pub mod ready; // ready.rt: pipelines become runnable
pub mod writer; // writer.rt: a read wakes a writer
