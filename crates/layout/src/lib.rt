// Records of small numbers in lent bytes, with one law for every load and store. A table is records of one size from a place on; specs/Records has
// what it says, specs/Stored that a store changes one record and nothing that lies apart, and whether two places lie apart computes. So a table's own
// crate proves no more than where it lies. Numbers of four bytes, a number or nothing, and stacks are here, and the test for bytes that are all 0,
// by which check 12 passes over what is not in use.
#![tactic(auto)]

pub mod blank; // blank.rt: bytes that are all 0
pub mod flags; // flags.rt: a number or nothing
pub mod words; // words.rt: numbers of four bytes
pub mod stack; // stack.rt: a stack of small numbers
