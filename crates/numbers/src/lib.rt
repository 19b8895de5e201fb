// Numbers below a limit that their type names, by which every table of the state is read, and in specs/ what all other crates need and none of
// document 01's words is about: a code's Option as the rules' (`Opt`), a test as a number (`Bit`), and the laws of arrays of which the first n
// count, which is how this repository writes the Rust's Vec, since it has no heap.
#![tactic(auto)]

pub mod index; // index.rt: a number below a limit

pub use index::Index;
