// Entries by any number: past its table there is nothing in use.
ghost use Rattle.std.specs.Prelude.{◌≡◌};
ghost use Rattle.rules.specs.Machine.{live, port_at};
ghost use Rattle.table_ports.specs.Ports.{port_of};
ghost use Rattle.tables.specs.View.{view};

use table_ports::{Port, Reader};
use tables::{PipeIndex, PortIndex, StateBytes};

// Whether a pipeline lives at a place.
pub fn is_live(s: &StateBytes, p: usize) -> bool
    ensures { result ≡ live (view s.now) p }
{
    p < 96 && table_pipes::pipes::is_live(s, PipeIndex { at: p })
}

// The port of a number.
pub fn port_of(s: &StateBytes, x: usize) -> Port
    ensures { port_of result ≡ port_at (view s.now) x }
{
    if 456 <= x {
        return Port {
            there: false,
            closed: false,
            changed: false,
            reader: Reader::Nobody,
        };
    }
    table_ports::ports::load_port(s, PortIndex { at: x })
}
