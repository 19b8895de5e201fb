// Document 01, "Ports and shares", as a scan is opened: the first leaf of each segment that is shared is marked, so that its first claim makes one
// source. A segment is shared if two leaves with a reach name it or two splits overlap its reach; the span and whether all leaves differ are asked
// once. `Shares::add` and `retain_shared` of the Rust's compile.rs.
#![tactic(auto)]

mod found; // found.rt: leaves with a reach, and the splits that overlap it
pub mod marking; // marking.rt: the first leaves of shared segments are marked
mod shared; // shared.rt: whether a segment is shared
