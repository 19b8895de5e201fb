// The port of a node in a slot.
ghost use Rattle.std.specs.Prelude.{◌≡◌, ◌||◌, ◌<◌, eqb};
ghost use Rattle.rules.specs.Table.{all};
ghost use Rattle.rules.specs.Plan.{node_of, root_of};
ghost use Rattle.rules.specs.Machine.{live, port_at, queue_at, node_at_place};
ghost use Rattle.rules.specs.Check.{place_ok, batch_ok, bounded_ok, port_ok};
ghost use Rattle.tables.specs.View.{view};

use crate::held::batch_ok;
use crate::readers::slot_reader;
use queue::Queue;
use table_ports::ports;
use table_ports::queues::{batch_at, queue_len};
use tables::{PipeIndex, PortIndex, SlotPortIndex, StateBytes};

// Whether port x is closed or still written by its pipeline.
fn written(s: &StateBytes, x: SlotPortIndex) -> bool
    ensures { result ≡ ((port_at (view s.now) x.at).closed || live (view s.now) x.at) }
{
    table_pipes::pipes::is_live(s, PipeIndex { at: x.at })
        || ports::is_closed(s, PortIndex { at: x.at })
}

// The number of columns of a place's node.
fn width_at(s: &StateBytes, x: usize) -> usize
    ensures { result ≡ (node_of (view s.now).job (node_at_place x)).width }
{
    usize::from(table_job::width::node_width(s, x % 24))
}

// Whether all batches in port x are of its node's columns, with rows that the job has.
fn batches_ok(s: &StateBytes, x: SlotPortIndex) -> bool
    ensures { result ≡ all (batch_ok (view s.now).job (node_of (view s.now).job (node_at_place x.at)).width)
        (queue_at (view s.now) x.at) }
{
    let n = queue_len(s, x);
    // kept: most queues are empty, and only for others the node's width is read.
    if n == 0 {
        return true;
    }
    let width = width_at(s, x.at);
    for i in 0..n {
        if !batch_ok(s, width, batch_at(s, x, i)) {
            return false;
        }
    }
    true
}

// Whether port x is of a node in an active slot, which is known, is written while it is open, and holds batches of its node.
fn bounded_ok(s: &StateBytes, x: SlotPortIndex, known: bool) -> bool
    requires known_value { known ≡ place_ok (view s.now) x.at }
    ensures { result ≡ bounded_ok (view s.now) x.at }
{
    known && written(s, x) && queue_len(s, x) <= Queue::DEFAULT_CAPACITY && batches_ok(s, x)
}

// Whether port x is in order: one that is not in use names nobody. Its place is known: whether it is of a node in an active slot, and
// whether it is the root's.
pub(crate) fn slot_port(s: &StateBytes, x: SlotPortIndex, known: bool, root: bool) -> bool
    requires known_value { known ≡ place_ok (view s.now) x.at }
    requires root_value { root ≡ eqb (node_at_place x.at) (root_of (view s.now).job) }
    ensures { result ≡ port_ok (view s.now) x.at (port_at (view s.now) x.at) }
{
    let y = PortIndex { at: x.at };
    if !ports::is_used(s, y) {
        return ports::is_unread(s, y);
    }
    slot_reader(s, x, root, ports::load_port(s, y).reader) && bounded_ok(s, x, known)
}
