// The front batches of a pack's inlets.
ghost use Rattle.std.specs.Prelude.{◌≡◌, map, ◌≤◌, ◌<◌, length};
ghost use Rattle.rules.specs.Table.{any, is_empty};
ghost use Rattle.rules.specs.Machine.{inlets_at, queue_at};
ghost use Rattle.rules.specs.Drive.{front_of};
ghost use Rattle.laws.specs.Rows.{All};
ghost use Rattle.pack_source.specs.Fronts.{fronts_of};
ghost use Rattle.tables.specs.View.{view};
ghost use Rattle.source_steps.specs.Fronts.{Filled};

use batches::Batch;
use pack_source::Fronts;
use table_pipes::inlets::inlet;
use table_ports::idle::is_idle;
use tables::{PipeIndex, PortIndex, SlotPortIndex, StateBytes};

// Whether an inlet has nothing to take.
pub(crate) fn any_empty(s: &StateBytes, p: PipeIndex) -> bool
    requires all { All (λ x. x < 456) (inlets_at (view s.now) p.at) }
    ensures { result ≡ any (λ x. is_empty (queue_at (view s.now) x)) (inlets_at (view s.now) p.at) }
{
    let n = table_pipes::inlets::inlet_count(s, p);
    for i in 0..n {
        if is_idle(s, PortIndex { at: inlet(s, p, i) }) {
            return true;
        }
    }
    false
}

// The front batch of every inlet.
pub(crate) fn fronts_of(s: &StateBytes, p: PipeIndex) -> Fronts
    requires p_len_bound { length (inlets_at (view s.now) p.at) ≤ 4 }
    requires all { All (Filled (view s.now)) (inlets_at (view s.now) p.at) }
    ensures { fronts_of result ≡ map (front_of (view s.now)) (inlets_at (view s.now) p.at) }
{
    let n = table_pipes::inlets::inlet_count(s, p);
    // kept: fixed memory: a pack has 4 inlets at most, and the rest of the array is not in use.
    let mut batches = [Batch::none(); 4];
    for i in 0..n {
        batches[i] = table_ports::queues::batch_at(s, SlotPortIndex { at: inlet(s, p, i) }, 0);
    }
    Fronts { batches, len: n }
}
