// Document 01, "Ports and shares": the leaf of a split claims a port of its segment. The first claim makes one source of the whole segment with a
// port for each claimant, a pair of a reach and an unfinished split that overlaps it; with one claimant only, the leaf gets a source of its own.
// `claim` of the Rust's `Compiler`, with a table by segment for its map.
#![tactic(auto)]

pub mod shared_source; // shared_source.rt: the source of a whole segment, with a port for each claimant
mod claimants; // claimants.rt: the pairs of a leaf and a split that may claim
pub mod claiming; // claiming.rt: a claim
pub mod ports; // ports.rt: ports made and claimed
mod share_ports; // share_ports.rt: a port for each claimant
pub mod waiting; // waiting.rt: the newest port that waits for its claim
