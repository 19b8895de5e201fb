// All outlets of a pipeline: its own port, or the ports of its segment that are there.
ghost use Rattle.std.specs.Prelude.{◌≤◌, ◌<◌, length};
ghost use Rattle.rules.specs.Port.{capacity};
ghost use Rattle.rules.specs.Machine.{queue_at, outlets};
ghost use Rattle.rules.specs.Ports.{push_out, close_each};
ghost use Rattle.rules.specs.Wake.{pass_marks};
ghost use Rattle.order.specs.Inv.{Live};
ghost use Rattle.order.specs.RangeParts.{Fits};
ghost use Rattle.order.specs.RangePorts.{OutFits};
ghost use Rattle.batches.specs.Batch.{batch_of};
ghost use Rattle.tables.specs.Change.{Becomes};
ghost use Rattle.tables.specs.View.{view};

use crate::act::Act;
use crate::{own, sweep};
use batches::Batch;
use tables::{PipeIndex, PortIndex, SlotPortIndex, StateBytes};

// The pipeline at p writes a batch; one without rows is neither queued nor marked.
pub fn push_out(s: &mut StateBytes, p: PipeIndex, b: Batch)
    requires width_bound { b.width ≤ 4 }
    requires fits { Fits (view s.old) }
    requires live { Live (view s.old).pipes p.at }
    requires out_fits { OutFits (view s.old).job p.at (batch_of b) }
    requires p_len_bound { p.at < 72 → length (queue_at (view s.old) p.at) < capacity }
    ensures { Becomes (push_out p.at (batch_of b)) s.old s.new }
{
    if b.rows == 0 {
        return;
    }
    if p.at < 72 {
        own::push_own(s, SlotPortIndex { at: p.at }, b);
        return;
    }
    sweep::sweep(s, Act::Push, p.at);
}

// The pipeline at p writes nothing more.
pub fn close_outlets(s: &mut StateBytes, p: PipeIndex)
    ensures { Becomes (λ m. close_each (outlets m p.at) m) s.old s.new }
{
    if p.at < 72 {
        own::close_own(s, SlotPortIndex { at: p.at });
        return;
    }
    sweep::sweep(s, Act::Close, p.at);
}

// The marks of what the pipeline at p writes go to the readers.
pub fn pass_marks(s: &mut StateBytes, p: PipeIndex)
    requires fits { Fits (view s.old) }
    requires live { Live (view s.old).pipes p.at }
    requires s_len_bound { length (view s.old).dirty < 3 }
    ensures { Becomes (λ m. pass_marks (outlets m p.at) m) s.old s.new }
{
    if p.at < 72 {
        waking::mark::pass_mark(s, PortIndex { at: p.at });
        return;
    }
    sweep::sweep(s, Act::Pass, p.at);
}
