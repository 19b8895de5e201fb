// Document 01, "Driver": the test of a pipeline's source and what the source gives, on the lent state. A segment source asks for its read when first
// tested; a concat passes inlets that have ended; a pack looks at the inlets that changed, newest first, and takes the least front of all. The
// sources themselves are by value (`segment_source`, `concat_source`, `pack_source`): here are their loads, stores and inlets. An inlet that is
// merely empty is waited for.
#![tactic(auto)]

mod asking; // asking.rt: a read is asked for, and causes of 14
mod concat; // concat.rt: the source that emits its inlets one after another
mod fronts; // fronts.rt: the front batches of a pack's inlets
mod inlets; // inlets.rt: what an inlet shows
mod noting; // noting.rt: what a pack notes of its inlets
mod pack; // pack.rt: the source that joins the rows of its inlets
mod segment; // segment.rt: the source of one segment's kept runs
pub mod source; // source.rt: whatever the source is
mod taking; // taking.rt: rows taken of a port
mod touching; // touching.rt: inlets that were read
