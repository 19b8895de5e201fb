// The sets of a pipeline's inlets, by place: those that were read in this run, those that changed, and what a pack has noted of its own. `InletSet`
// is loaded and stored whole; its changes are made where the loaded set lies, by lending it (`inlet_set`).
#![tactic(auto)]

pub mod packs;
pub mod sets;
