// Whether a stored job is one that opening leaves, in one walk over its nodes with a stack of those that wait for their parent, and whether all its
// leaves name different segments. Check 12 asks the first at every call and opening the second, which tells it what can be shared. `stored` proves
// that the walk answers as the rules do.
#![tactic(auto)]

mod left; // left.rt: what is left of a parent
mod stack; // stack.rt: the nodes that wait for their parent
mod seen; // seen.rt: the segments that have come
mod pops; // pops.rt: the children taken off the stack
mod leaf; // leaf.rt: a leaf comes
mod join; // join.rt: an inner node comes
mod walk; // walk.rt: all nodes come
mod split_ranges; // split_ranges.rt: the splits
pub mod job; // job.rt: the whole job
