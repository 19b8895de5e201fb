// How many runs a segment source emits or a stage cuts.
ghost use Rattle.std.specs.Prelude.{◌≡◌, length};
ghost use Rattle.rules.specs.Machine.{pieces_at};
ghost use Rattle.tables.specs.View.{view};

use tables::{PipeIndex, SlotPipeIndex, StateBytes};

// How many runs there are at a place: those kept in its slot's split, or the whole segment.
pub fn run_count(s: &StateBytes, p: PipeIndex) -> usize
    ensures { result ≡ length (pieces_at (view s.now) p.at) }
{
    if 72 <= p.at {
        return 1;
    }
    let i = reach::places::split_at(s, SlotPipeIndex { at: p.at });
    reach::cut::kept_count(s, p.at % 24, i)
}
