// Document 01, "Sessions": where the job ends in the bytes of an input, and the calls behind it, `ST` a step and `DL` a delivery with its read
// and its rows. "The job ends at the first of these two marks where a record could begin, or with the input"; a call's mark that is unknown or
// cut short is a bad call, which ends the session. A record or a call that is whole does not turn on what follows it (`specs/Taken.antt`). `session` and
// `feeding` read their input with these functions.
#![tactic(auto)]

pub mod calls; // calls.rt: the call at a position
pub mod job; // job.rt: where the job ends

pub use calls::Call;
