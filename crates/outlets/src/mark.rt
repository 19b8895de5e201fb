// A port is marked or closed.
ghost use Rattle.std.specs.Prelude.{◌≡◌};
ghost use Rattle.rules.specs.Machine.{port_at, set_port};
ghost use Rattle.rules.specs.Ports as rule;
ghost use Rattle.table_ports.specs.Ports.{port_of};
ghost use Rattle.tables.specs.Change.{Becomes};

use table_ports::Port;
use tables::{PortIndex, StateBytes};

// The same port with a mark.
fn marked(v: Port) -> Port
    ensures { port_of result ≡ rule.marked (port_of v) }
{
    Port { changed: true, ..v }
}

// The same port closed: closing marks once.
fn closed_now(v: Port) -> Port
    ensures { port_of result ≡ rule.closed_now (port_of v) }
{
    Port {
        closed: true,
        changed: v.changed || !v.closed,
        ..v
    }
}

// Port x changed.
pub(crate) fn mark_port(s: &mut StateBytes, x: PortIndex)
    ensures { Becomes (λ m. set_port x.at (rule.marked (port_at m x.at)) m) s.old s.new }
{
    let v = table_ports::ports::load_port(s, x);
    table_ports::ports::store_port(s, x, marked(v));
}

// Port x is closed, and stays in use.
pub(crate) fn close_port(s: &mut StateBytes, x: PortIndex)
    ensures { Becomes (λ m. set_port x.at (rule.closed_now (port_at m x.at)) m) s.old s.new }
{
    let v = table_ports::ports::load_port(s, x);
    table_ports::ports::store_port(s, x, closed_now(v));
}
