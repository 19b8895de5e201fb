// A state made anew: what nothing may look at before it is written is made 0, then the job is stored from its bytes, runs
// that meet joined, and the numbers of its nodes behind the machine. Opening ends here but for the marks of shared segments. `clear` makes the
// machine all zero and `store_labels` what stands behind it, as refusals 13 and 14 leave both.
#![tactic(auto)]

pub mod job; // job.rt: a job in its tables, and a state made anew
pub mod labels; // labels.rt: the numbers of the nodes, behind the machine
mod node; // node.rt: a node into its record
mod nodes; // nodes.rt: nodes into their table
mod outline; // outline.rt: a split whose runs lie in the job bytes, into its record
mod outlines; // outlines.rt: such splits into their table
pub mod zeros; // zeros.rt: all bytes 0
