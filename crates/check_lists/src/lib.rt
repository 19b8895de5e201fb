// Check 12 of a state's counters, lists and slots: how many there are of everything, and that each number on a list names what it may: a live
// pipeline on the ready stack, a read that was made, a split of the job in a slot.
#![tactic(auto)]

pub mod counts; // counts.rt: how many of everything
mod first; // first.rt: the first leaf of a segment
pub mod lists; // lists.rt: all lists
mod outputs; // outputs.rt: the outputs that are held
mod reads; // reads.rt: the reads, and those that are not told yet
mod slot_list; // slot_list.rt: the slots, and the sources to make
mod stacks; // stacks.rt: the stacks of numbers
