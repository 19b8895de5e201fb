// What is in sequence: the reads that were made, the new ones that no turn has told yet, and the outputs that are held, each pushed at the end and
// taken from the front. The Rust's `VecDeque` becomes a ring (`queue::Queue`); a read is the leaf it was asked for, the place that waits for it, and
// whether it was delivered.
#![tactic(auto)]

pub mod news;
mod number_ring; // number_ring.rt: a ring of small numbers
mod output_ring; // output_ring.rt: an output, and a ring of them
pub mod outputs;
mod read_list; // read_list.rt: a read, and a list of them
pub mod reads;
mod ring; // ring.rt: the head and the count of a ring

pub use output_ring::Output;
pub use read_list::Read;
