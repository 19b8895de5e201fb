// What the tests of check 12 share: entries that any number names, whether a place is one of the job's, and the laws of loops that test a table entry
// by entry or block by block.
#![tactic(auto)]

pub mod entries; // entries.rt: pipelines and ports by any number
pub mod places; // places.rt: active slots, and where a pipeline or port may stand
