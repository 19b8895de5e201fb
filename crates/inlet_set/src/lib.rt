// The Rust's `InletSet` of plan/physical/operator.rs: numbers of a pipeline's inlets in the sequence of their insertion. A number that goes
// leaves its place to the newest, so that the sequence is the Rust's after any removals, and turns depend on it: neighbours are woken and inlets
// observed in that sequence. `insert`, `remove` and `pop` take a set that is lent and change it where it lies (lent.rt); the
// methods by value under them are covered. In the definitions a set is a list, the newest first (rules, InletSet).
#![tactic(auto)]

mod insert; // insert.rt: a number joins a set
pub mod lent; // lent.rt: a set changed where it lies
mod pop; // pop.rt: the numbers by the time of their insertion
mod remove; // remove.rt: a number leaves a set
mod set; // set.rt: a set, and where a number stands in it

pub use set::InletSet;
