// The Rust's operators/pack.rs: the source that joins the rows of its inlets side by side. It notes what each inlet last showed and which of them
// wait, observes changed inlets newest first, blocks on the last in its waiting set, and gives the least front of all of them; fields that end
// at different rows are the Rust's error and document 01's number 14. By value: the state's loads and stores are in `source_steps`.
// `take_rows` always yields one piece here; validity and `assemble` are left out.
#![tactic(auto)]

mod fronts; // fronts.rt: the front batches of the inlets
mod pack; // pack.rt: what is noted of the inlets
pub mod pack_ready; // pack_ready.rt: what is answered from that
mod waiting; // waiting.rt: the set of inlets that are waited for

pub use fronts::Fronts;
pub use pack::PackSource;
pub use pack_ready::EndedApart;
