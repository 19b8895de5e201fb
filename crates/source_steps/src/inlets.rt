// What an inlet shows.
ghost use Rattle.std.specs.Prelude.{◌≡◌, ◌<◌, length};
ghost use Rattle.rules.specs.Table.{get};
ghost use Rattle.rules.specs.Port.{sees};
ghost use Rattle.rules.specs.Machine.{port_at, queue_at, inlets_at, shows};
ghost use Rattle.queue.specs.Seen.{seen_of};
ghost use Rattle.tables.specs.View.{view};

use queue::Seen;
use tables::{PipeIndex, PortIndex, StateBytes};

// What a reader sees of port x.
fn sees(s: &StateBytes, x: PortIndex) -> Seen
    ensures { seen_of result ≡ sees (queue_at (view s.now) x.at) (port_at (view s.now) x.at).closed }
{
    if !table_ports::idle::is_idle(s, x) {
        Seen::Ready
    } else if table_ports::ports::load_port(s, x).closed {
        Seen::Ended
    } else {
        Seen::Waiting
    }
}

// What inlet i of the pipeline at a place shows.
pub(crate) fn shows(s: &StateBytes, p: PipeIndex, i: usize) -> Seen
    requires i_in_bounds { i < length (inlets_at (view s.now) p.at) }
    requires i_bound { get 0 (inlets_at (view s.now) p.at) i < 456 }
    ensures { seen_of result ≡ shows (view s.now) p.at i }
{
    sees(
        s,
        PortIndex {
            at: table_pipes::inlets::inlet(s, p, i),
        },
    )
}
