// The state of a scan in lent bytes: which bytes hold what. specs/View.antt reads any bytes as the rules' machine (`view`), so that every load and
// store above is an equation with the rules' own reading or setter, on any bytes of sufficient length; docs/STATE.md is its table in words. The
// Rust's Slab and FxHashMap become tables by place: the pipeline of a node in a slot, the port of a leaf and a split. Behind the machine stand the
// numbers of its nodes in job order, which nothing of it reads. The code here is the record of a batch, which ports and outputs share; the table_*
// crates have the rest.
#![tactic(auto)]

pub mod batch; // batch.rt: a batch in its record
pub mod front; // front.rt: the machine at the front of lent bytes
pub mod index; // index.rt: where something stands in a table

pub use index::{
    NodeIndex, PipeIndex, PortIndex, ReadIndex, SharedPortIndex, SlotIndex, SlotPipeIndex,
    SlotPortIndex, SplitIndex,
};

// The bytes of the machine.
pub const MACHINE_LEN: usize = 39327;

// The published length, with the numbers of the nodes behind the machine: a lent state has at least as many bytes.
pub const STATE_LEN: usize = 39351;

// The bytes of the machine: any bytes of at least so many have them at their front (specs/Front.antt).
pub type StateBytes = [u8; MACHINE_LEN];

// The bytes of the published length.
pub type PublishedBytes = [u8; STATE_LEN];
