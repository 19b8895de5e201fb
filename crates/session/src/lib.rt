// Document 01, "Sessions": from the bytes of an input, a job and then calls, to the bytes that are printed for it. `session` has the whole input
// before it, and what it writes is the rule `session` of that input, as far as there is room. `next` is one turn of a session whose input still
// comes, as `turns` takes it: what to do with the bytes that are there is `feeding`'s, and with its law the turns joined are the same session.
// Calls are read by `call_records`, lines written by `lines`.
#![tactic(auto)]

mod answers; // answers.rt: one call answered
mod feed; // feed.rt: one turn of a session whose input still comes
mod whole; // whole.rt: a whole session

pub use answers::answer;
pub use feed::{Fed, next};
pub use whole::session;
