// Check 12 of what a pipeline is fed by and of its source: each inlet is a port below it in the tree or a shared one, no two the same, its sets name
// inlets that it has, its source is of its node's kind and stands within its runs or inlets.
#![tactic(auto)]

pub mod fed; // fed.rt: the ports that feed a pipeline
pub mod pack; // pack.rt: what a pack notes
pub mod runs; // runs.rt: how many runs there are at a place
pub mod sets; // sets.rt: sets of inlets
pub mod source; // source.rt: the source fits its node
