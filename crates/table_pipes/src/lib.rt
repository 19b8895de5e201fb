// The tables of pipelines, by place: a pipeline's state and number, its source, its stage, and the ports of its inlets. A kind or count out of its
// range reads as an entry that check 12 refuses wherever it is in use. The Rust keeps a `Box<dyn Source>`: here a source is a kind with its data.
// kept: a load and a store for each table. What they share is one law in `layout` and one in `tables`; the size, the fields and the value differ, so
// that a trait would need both functions of each table again, with a contract each.
#![tactic(auto)]

pub mod blank; // blank.rt: blocks of places that are not in use
pub mod inlets; // inlets.rt: the ports of a pipeline's inlets
pub mod pipes; // pipes.rt: a pipeline's state and number
pub mod source_table; // source_table.rt: a pipeline's source
pub mod stages; // stages.rt: a pipeline's stage

pub use inlets::Inlets;
pub use source_table::Source;
pub use stages::Stage;
