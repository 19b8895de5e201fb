// The Rust's pipeline/scan.rs, `Scan`: opening, step and delivery on a lent state, the public functions of this repository. Document 01, "Turns and
// refusals" and "Driver": a step tries an output held, a new read, the newest dirty slot, a free slot and a next split, the newest ready
// pipeline, and starts over after each inner action; document 02 (m): an accepted delivery goes on with a step. None has a `requires`; what each
// promises of any bytes, line by line of document 01's table, is in specs/Answers.antt, and demand 3 of every list of calls in
// specs/Demand.antt. Read on in `slots` and `running`, which it calls.
#![tactic(auto)]

mod actions; // actions.rt: what a step tries, one after another
mod delivery; // delivery.rt: a delivery, and the step behind it
mod opening; // opening.rt: opening
mod rest; // rest.rt: slots and reads when nothing is runnable
mod stepping; // stepping.rt: a step

pub use delivery::deliver;
pub use jobs::Refusal;
pub use opening::open;
pub use stepping::step;
pub use tables::STATE_LEN;
pub use turn::Turn;
