// The small tables of a state: its counters and flags, the split of each slot, the mark that a cause of 14 came up, and the stacks of ready
// pipelines, freed numbers and dirty slots, newest last in the bytes and newest first in the rules.
#![tactic(auto)]

pub mod active; // active.rt: the split of each slot
pub mod causes; // causes.rt: a cause of 14 comes up
pub mod counters; // counters.rt: counters, and the mark of 14
mod entry; // entry.rt: an entry of a stack
pub mod flags; // flags.rt: splits that are finished, sources still to be made
mod holds; // holds.rt: whether a stack holds a number
pub mod stacks; // stacks.rt: ready pipelines, freed numbers, dirty slots
