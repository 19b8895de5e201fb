// Check 12 of the ports and of what waits in them: a port in use stands at a place of the job, its reader reads it, its batches have the rows and
// columns of its node; one that is not in use names nobody and holds nothing. Ports are passed over in blocks of bytes that are all 0.
#![tactic(auto)]

pub mod held; // held.rt: a batch of a node's rows
mod bounded; // bounded.rt: the port of a node in a slot
pub mod ports; // ports.rt: all ports
pub mod queues; // queues.rt: all queues
mod readers; // readers.rt: who reads a port
mod shared; // shared.rt: the port of a leaf and a split
