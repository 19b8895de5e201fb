// Where something stands in a table of the state: an index is below its table's size by its type.
ghost use Rattle.std.specs.Prelude.{◌<◌, ◌≤◌};

use numbers::Index;

// A slot.
pub type SlotIndex = Index<3>;

// A split of the job.
pub type SplitIndex = Index<16>;

// A node of the job.
pub type NodeIndex = Index<24>;

// A read.
pub type ReadIndex = Index<24>;

// A pipeline: that of node n in slot k stands at 24 k + n, the source of a shared segment at 72 + the leaf that claimed it first.
pub type PipeIndex = Index<96>;

// A port: one of a slot stands where its writer does, the shared port of leaf l and split s at 72 + 16 l + s.
pub type PortIndex = Index<456>;

// The pipeline of a node in a slot, and its port, which has its number.
pub type SlotPipeIndex = Index<72>;

pub type SlotPortIndex = Index<72>;

// A shared port.
#[derive(Clone, Copy)]
pub struct SharedPortIndex {
    pub at: usize,
    ghost shared: { 72 ≤ at },
    ghost below: { at < 456 },
}
