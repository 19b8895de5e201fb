// The port of a slot's pipeline.
ghost use Rattle.std.specs.Prelude.{◌≤◌, ◌<◌, length};
ghost use Rattle.rules.specs.Port.{capacity};
ghost use Rattle.rules.specs.Machine.{queue_at};
ghost use Rattle.rules.specs.Ports as rule;
ghost use Rattle.batches.specs.Batch.{batch_of};
ghost use Rattle.tables.specs.Change.{Becomes};
ghost use Rattle.tables.specs.View.{view};

use crate::mark;
use batches::Batch;
use table_ports::vacant;
use tables::{PortIndex, SlotPortIndex, StateBytes};

// A batch goes behind the last in port x, which has room for it.
pub(crate) fn push_own(s: &mut StateBytes, x: SlotPortIndex, b: Batch)
    requires width_bound { b.width ≤ 4 }
    requires x_len_bound { length (queue_at (view s.old) x.at) < capacity }
    ensures { Becomes (rule.push_to (batch_of b) x.at) s.old s.new }
{
    mark::mark_port(s, PortIndex { at: x.at });
    table_ports::queues::push_batch(s, x, b);
}

// Port x is closed, and freed where its reader has gone.
pub(crate) fn close_own(s: &mut StateBytes, x: SlotPortIndex)
    ensures { Becomes (rule.close_to x.at) s.old s.new }
{
    let x = PortIndex { at: x.at };
    if table_ports::ports::is_unread(s, x) {
        vacant::free_port(s, x);
        return;
    }
    mark::close_port(s, x);
}
