// What goes out of a pipeline: a batch pushed to its outlet or, for a shared source, to the port of every claimant; all closed at its end; their
// marks passed to their readers after a run. An empty batch is neither queued nor marked, closing marks once, and a port whose reader has gone is
// freed when it closes. `push_out` of the Rust's scan.rs.
#![tactic(auto)]

mod act; // act.rt: what is done to a shared port
pub mod each; // each.rt: all outlets of a pipeline
mod mark; // mark.rt: a port is marked or closed
mod outlet; // outlet.rt: which shared ports a pipeline writes
mod own; // own.rt: the port of a slot's pipeline
mod sweep; // sweep.rt: all shared ports that a pipeline writes
pub mod unread; // unread.rt: whether anybody reads a shared source
