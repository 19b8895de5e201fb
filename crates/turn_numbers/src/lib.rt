// The answers of a call as numbers, for programs in C and Rust: 0 or the number of a refusal, an opening's index of a run at fault, and a turn as
// twelve 32-bit numbers in a slice that the caller lends. What each number stands for is in specs/Numbers.antt; no refusal is 0, so that 0 says
// that the call was answered. Nothing here calls the scan: `ritsghule` does, and hands its answers on.
#![tactic(auto)]

pub mod refusal; // refusal.rt: an opening as numbers
pub mod written; // written.rt: a turn as twelve numbers

pub use refusal::NO_ROOM;
pub use written::TURN_LEN;
