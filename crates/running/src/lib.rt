// Document 01, "Driver": a run of a pipeline and what follows it. It stops blocked, at its outlet or done; the readers of what it wrote are woken
// first, by outlet, then the writers of what it read, in the sequence of the set; one that is done retires; blocked on IO with delivered bytes
// unused, it is queued again. `run` of the Rust's `Core`.
#![tactic(auto)]

mod neighbours; // neighbours.rt: readers and writers are woken
pub mod settling; // settling.rt: a run, and what follows it
mod stops; // stops.rt: the state of a pipeline that stopped
