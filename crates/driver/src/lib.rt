// Document 01, "Driver": "One run of a pipeline repeats this round until one of three answers leaves it: Blocked, Outlet, Done". `drive` of the
// Rust's scan.rs: a labelled loop whose stage loop leaves it by break; stages come first, then the source, tested unless it last said More. A cause
// of 14 leaves it by a fourth answer in place of the Rust's error. `running` goes on from there.
#![tactic(auto)]

mod stage; // stage.rt: the cutting stage, and what goes out
mod source; // source.rt: the source's turn
pub mod rounds; // rounds.rt: rounds until one of three answers

pub use rounds::Progress;
