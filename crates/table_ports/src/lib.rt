// The tables of ports: whether a port is in use, closed or marked, who reads it, and the queue of batches that wait in it. The 72 ports of nodes in
// slots have a ring of places each, of which the queue (`queue::Queue`) is two bytes, and batches are changed in place; the 384 shared ports, one for
// each leaf and split, have no limit and hold the whole segment or nothing: of their queue it is stored whether this batch is there. How many rows wait
// is not stored: where it is asked whether a port is full, they are summed. The Rust's pipeline/port.rs, arena and all.
#![tactic(auto)]

pub mod blank; // blank.rt: blocks of ports that are not in use
pub mod idle; // idle.rt: whether something waits in a port
pub mod ports; // ports.rt: a port and its reader
pub mod queues; // queues.rt: the batches of a port in a slot
mod rings; // rings.rt: the ring of such a port, by value
pub mod share_flags; // share_flags.rt: whether a shared port holds its segment
pub mod vacant; // vacant.rt: a port that is not in use any more

pub use ports::{Port, Reader};
