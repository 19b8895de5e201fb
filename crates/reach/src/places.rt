// The split of a place, and its runs with their leaf.
ghost use Rattle.std.specs.Prelude.{◌≡◌, [], ◌∷◌, ◌<◌};
ghost use Rattle.rules.specs.Plan.{pieces_of};
ghost use Rattle.rules.specs.Machine.{split_at, pieces_at};
ghost use Rattle.segment_source.specs.Pieces.{pieces_in};
ghost use Rattle.tables.specs.View.{view, Sized};

use crate::cut;
use batches::SegmentId;
use jobs::Run;
use segment_source::Pieces;
use tables::front::machine;
use tables::{PipeIndex, SlotIndex, SlotPipeIndex, StateBytes};

// One run of this many rows.
fn whole(leaf: usize, segment: SegmentId, rows: u32) -> Pieces
    ensures { pieces_in result ≡ pieces_of leaf segment.0 (record { start = 0; size = rows } ∷ []) }
{
    let mut runs = [Run { start: 0, size: 0 }; 16];
    runs[0].size = rows;
    Pieces {
        leaf,
        segment,
        runs,
        len: 1,
    }
}

// The split of a place in a slot; 0 where the slot has none.
pub fn split_at(s: &StateBytes, p: SlotPipeIndex) -> usize
    ensures { result ≡ split_at (view s.now) p.at }
{
    usize::from(table_lists::active::load_active(s, SlotIndex { at: p.at / 24 }).unwrap_or(0))
}

// The runs of a place of the machine.
fn place_runs(s: &StateBytes, p: PipeIndex) -> Pieces
    ensures { pieces_in result ≡ pieces_at (view s.now) p.at }
{
    let leaf = p.at % 24;
    let segment = SegmentId::new(table_job::node_fields::node_segment(s, leaf));
    if 72 <= p.at {
        return whole(leaf, segment, table_job::node_fields::node_rows(s, leaf));
    }
    let k = cut::runs_at(s, leaf, split_at(s, SlotPipeIndex { at: p.at }));
    let runs = k.runs;
    Pieces {
        leaf,
        segment,
        runs,
        len: k.count,
    }
}

// The runs that a segment source emits or a stage cuts: those kept in its slot's split, or the whole segment.
pub fn pieces_at(s: &[u8], p: PipeIndex) -> Pieces
    requires sized { Sized s.now }
    ensures { pieces_in result ≡ pieces_at (view s.now) p.at }
{
    place_runs(machine(s), p)
}
