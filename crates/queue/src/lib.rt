// The Rust's pipeline/port.rs: the queue type, and what a reader sees of a port. A queue is a ring by value, of which every port is made
// (`Queue::new`), asked and changed: where its oldest batch stands, how many wait, how many may, and with how many rows it is full all the same. The
// batches themselves lie in the state (table_ports), so that none is copied; the state's other rings are queues too (table_queues). `Seen` is what the
// sources are told of their inlets. A reader that sees a port empty does not take it for ended: that it is closed too makes it so, and this is where
// the earlier reader put deeper rows first.
#![tactic(auto)]

mod capacity; // capacity.rt: a queue, and its capacity
pub mod seen; // seen.rt: what a reader sees

pub use capacity::Queue;
pub use seen::Seen;
